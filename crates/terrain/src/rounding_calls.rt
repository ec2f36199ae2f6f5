// A rounded plane, and the figure by which its heights are off. What the calls say is `rounding`'s.
ghost use Rattle.std.specs.Prelude.{◌≡◌, ◌*◌, length, eqb};
ghost use Rattle.numbers.specs.Signal.{at, pick};
ghost use Rattle.map_questions.specs.Calls.{passed};
ghost use Rattle.rounding.specs.Rounding.{rounded_plane};
ghost use Rattle.rounding.specs.Figure.{error_bound};
ghost use Rattle.rounding.specs.Calls.{round_question, bound_question};

use rounding::error;

// A plane by the 5/3, from the origin, its HL, LH and HH values rounded toward zero to multiples of a step. The questions are 2, 3, 4, 20 and 5.
pub fn terrain_round(
    plane: &mut [i32],
    width: usize,
    height: usize,
    levels: usize,
    step: usize,
) -> u32
    ensures value { result ≡ round_question width height levels step (length plane.old) }
    ensures plane_after { at plane.new ≡
        passed result (width * height) (rounded_plane levels width height step (at plane.old)) (at plane.old) }
{
    let answer = rounding::round(plane, width, height, levels, step);
    refusal::code(answer) as u32
}

// How far off a height can be that a tolerant reader draws from such a plane. The questions are 4 and 20; a no leaves the bound.
pub fn terrain_error_bound(levels: usize, step: usize, bound: &mut usize) -> u32
    ensures value { result ≡ bound_question levels step }
    ensures bound_after { bound.new ≡ pick (eqb result 0) (error_bound levels step) bound.old }
{
    match error::error_bound(levels, step) {
        Ok(most) => {
            *bound = most;
            0
        }
        Err(why) => why.number() as u32,
    }
}
