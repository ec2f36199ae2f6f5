// The calls of `synthesis` at the 9/7, exported likewise: each has that crate's own promise.
ghost use Rattle.std.specs.Prelude.{◌≡◌, length, leb};
ghost use Rattle.numbers.specs.Signal.{at, pick};
ghost use Rattle.lifting.specs.Grid.{side};
ghost use Rattle.level.specs.Rebuilding.{widest, work_answer};
ghost use Rattle.synthesis.specs.Back.{back_of, row_place_of, workable_of, work_left_of};

use synthesis::back;

#[unsafe(no_mangle)]
pub extern "C" fn nine_seven_row_place(w: usize, r: usize) -> usize
    ensures { result ≡ pick (leb w widest) (row_place_of 1 w r) 0 }
{
    back::row_place(1, w, r)
}

#[unsafe(no_mangle)]
pub extern "C" fn nine_seven_work_set(
    stretch: &mut [i32],
    last: bool,
    k: usize,
    w: usize,
    h: usize,
    x: usize,
    y: usize,
    n: usize,
) -> u32
    ensures value { result ≡
        work_answer (workable_of 1 last k (side x w) (side y h) n (length stretch.old))
        ((back_of 1).work last k (side x w) (side y h) n (at stretch.old)) }
    ensures stretch_after { at stretch.new ≡
        work_left_of 1 (side x w) (workable_of 1 last k (side x w) (side y h) n (length stretch.old))
        ((back_of 1).work last k (side x w) (side y h) n (at stretch.old)) (at stretch.old) }
{
    u32::from(refusal::code(back::work_set(stretch, 1, last, k, w, h, x, y, n)))
}
