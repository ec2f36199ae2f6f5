// A set worked out as a tolerant reader does it, of the 5/3 from the origin: each row is limited to its level's range as it is made, an even row before the odd
// rows that it rebuilds. The module is private: only this crate, which meets what is required, can call it.
ghost use Rattle.std.specs.Prelude.{◌≡◌, ◌+◌, ◌*◌, ◌<◌, ◌≤◌, ◌^◌, length};
ghost use Rattle.numbers.specs.Signal.{at, pick};
ghost use Rattle.lifting.specs.Line.{lo};
ghost use Rattle.lifting.specs.Grid.{side, count};
ghost use Rattle.filters.specs.Filters.{filter_of};
ghost use Rattle.level.specs.Tried.{outcome, passed};
ghost use Rattle.level.specs.Rebuilding.{Kept};
ghost use Rattle.synthesis.specs.Tolerant.{row_limited, even_limited, odd_limited, pair_limited, last_limited, tolerant_columns};
ghost use Rattle.synthesis.specs.Work.{even_done, rows_made, set_made, set_worked};

use crate::{range, rows, work};

// The row at q, of w low-low values of level k (k = 0: heights), limited.
fn limit_row(stretch: &mut [i32], k: usize, w: usize, q: usize)
    requires { (w ≤ 2 ^ 16) × ((filter_of 0).rows * w ≤ length stretch.old) × (k ≤ (filter_of 0).levels) }
    ensures { at stretch.new ≡ row_limited k w q (at stretch.old) }
{
    let a = rows::row_place(0, w, q);
    let e = a + w;
    tolerance::limit_all(
        &mut stretch[a..e],
        range::lowest_of(0, k),
        filters::range_of(0, k),
    );
}

// The even row of set n,
fn make_even(stretch: &mut [i32], k: usize, w: usize, h: usize, n: usize)
    requires { (w ≤ 2 ^ 16) × ((filter_of 0).rows * w ≤ length stretch.old) × (k ≤ (filter_of 0).levels) × (n < 2 ^ 32) × (h < 2 ^ 32) }
    ensures { at stretch.new ≡ even_limited k w (side 0 h) (2 * n) (at stretch.old) }
{
    rows::undo_even(stretch, 0, w, h, 0, 2 * n);
    limit_row(stretch, k, w, 2 * n);
}

// an odd row,
fn make_odd(stretch: &mut [i32], k: usize, w: usize, h: usize, q: usize)
    requires { (w ≤ 2 ^ 16) × ((filter_of 0).rows * w ≤ length stretch.old) × (k ≤ (filter_of 0).levels) × (q ≤ 2 ^ 34) × (h < 2 ^ 32) × (1 < h) }
    ensures { at stretch.new ≡ odd_limited k w (side 0 h) q (at stretch.old) }
{
    rows::undo_odd(stretch, 0, w, h, 0, q);
    limit_row(stretch, k, w, q);
}

// the odd row before the even row of set n,
fn make_before(stretch: &mut [i32], k: usize, w: usize, h: usize, n: usize)
    requires { (w ≤ 2 ^ 16) × ((filter_of 0).rows * w ≤ length stretch.old) × (k ≤ (filter_of 0).levels) × (n < 2 ^ 32) × (h < 2 ^ 32) × (2 * n < h) }
    ensures { at stretch.new ≡ pair_limited k w (side 0 h) n (at stretch.old) }
{
    if n == 0 {
        return;
    }
    make_odd(stretch, k, w, h, 2 * n - 1);
}

// and, if no row comes after the set's own, the odd row of set n.
fn make_last(stretch: &mut [i32], k: usize, w: usize, h: usize, n: usize)
    requires { (w ≤ 2 ^ 16) × ((filter_of 0).rows * w ≤ length stretch.old) × (k ≤ (filter_of 0).levels) × (n < 2 ^ 32) × (h < 2 ^ 32) × (2 * n < h) }
    ensures { at stretch.new ≡ last_limited k w (side 0 h) n (at stretch.old) }
{
    if h == 2 * n + 2 {
        make_odd(stretch, k, w, h, 2 * n + 1);
    }
}

// The rows that set n makes, lifted back along the row.
fn make_rows(stretch: &mut [i32], k: usize, w: usize, h: usize, n: usize)
    requires { (w ≤ 2 ^ 16) × ((filter_of 0).rows * w ≤ length stretch.old) × (k ≤ (filter_of 0).levels) × (n < 2 ^ 32) × (h < 2 ^ 32) × (2 * n < h) }
    ensures stretch_after { passed (at stretch.new) ≡
        rows_made tolerant_columns k w (side 0 h) n (even_done tolerant_columns k w (side 0 h) n (at stretch.old)) }
    ensures kept { Kept ((filter_of 0).rows * w) (at stretch.old) (at stretch.new) }
{
    make_even(stretch, k, w, h, n);
    make_before(stretch, k, w, h, n);
    make_last(stretch, k, w, h, n);
}

fn make_set(stretch: &mut [i32], k: usize, w: usize, h: usize, n: usize) -> bool
    requires { (w ≤ 2 ^ 16) × ((filter_of 0).rows * w ≤ length stretch.old) × (k ≤ (filter_of 0).levels) × (n < 2 ^ 32) × (h < 2 ^ 32) × (2 * n < h) }
    ensures stretch_after { outcome result (at stretch.new) ≡ set_made tolerant_columns k (side 0 w) (side 0 h) n (at stretch.old) }
    ensures kept { Kept ((filter_of 0).rows * w) (at stretch.old) (at stretch.new) }
{
    if !work::unlift_set(stretch, 0, w, h, 0, 0, n) {
        return false;
    }
    make_rows(stretch, k, w, h, n);
    true
}

// Set n of level k + 1 worked out. No number is refused: a single number at an odd coordinate never comes.
pub fn work_set(stretch: &mut [i32], last: bool, k: usize, w: usize, h: usize, n: usize) -> bool
    requires { (w ≤ 2 ^ 16) × ((filter_of 0).rows * w + (filter_of 0).rows * pick last 0 (count lo (side 0 w)) ≤ length stretch.old) × (n < 2 ^ 32)
        × (h < 2 ^ 32) × (k ≤ (filter_of 0).levels) × (2 * n < h) }
    ensures stretch_after { outcome result (at stretch.new) ≡ set_worked tolerant_columns last k (side 0 w) (side 0 h) n (at stretch.old) }
    ensures kept { Kept ((filter_of 0).rows * w) (at stretch.old) (at stretch.new) }
{
    work::take_low(stretch, 0, last, w, h, 0, 0, n);
    make_set(stretch, k, w, h, n)
}
