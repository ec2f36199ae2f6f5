// A plane rounded for a smaller download, and how far the heights that a tolerant reader rebuilds from it can be off. Document 02, Q-10: the 5/3, from the
// origin.
#![tactic(auto)]

pub mod error;
mod rows;
mod step;

ghost use Rattle.std.specs.Prelude.{◌≡◌, ◌*◌, length};
ghost use Rattle.numbers.specs.Signal.{at};
ghost use Rattle.refusal.specs.Numbers.{answer};
ghost use Rattle.map_questions.specs.Calls.{passed};
ghost use Rattle.rounding.specs.Rounding.{rounded_plane};
ghost use Rattle.rounding.specs.Calls.{round_question};

use refusal::Refusal;
use wavelet::limits;

// Questions 2, 3, 4, 20 and 5, of a plane of n numbers: the first that says no.
fn question(
    n: usize,
    width: usize,
    height: usize,
    levels: usize,
    step: usize,
) -> Result<(), Refusal>
    ensures { answer result ≡ round_question width height levels step n }
{
    limits::size_question(width, height, levels)?;
    if !limits::is_within(step, error::MAX_STEP) {
        return Err(Refusal::BadStep);
    }
    if n < width * height {
        return Err(Refusal::AreaShort);
    }
    Ok(())
}

// The plane's HL, LH and HH values rounded toward zero to multiples of the step; LL and the surplus stay. Or the question that turned it away.
pub fn round(
    plane: &mut [i32],
    width: usize,
    height: usize,
    levels: usize,
    step: usize,
) -> Result<(), Refusal>
    ensures value { answer result ≡ round_question width height levels step (length plane.old) }
    ensures plane_after { at plane.new ≡
        passed (answer result) (width * height) (rounded_plane levels width height step (at plane.old)) (at plane.old) }
{
    question(plane.len(), width, height, levels, step)?;
    rows::round_rows(plane, width, height, levels, step);
    Ok(())
}
