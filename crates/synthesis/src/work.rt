// A set worked out in its level's stretch of the line store. Set n has the rows at 2n and 2n + 1; at the look-ahead a it makes those at 2(n − a) + 1 and
// 2(n − a) + 2, the last set all that is left. The module is private: only this crate, which meets what is required, can call it.
ghost use Rattle.std.specs.Prelude.{◌≡◌, ◌+◌, ◌-◌, ◌*◌, ◌%◌, ◌<◌, ◌≤◌, ◌^◌, length};
ghost use Rattle.numbers.specs.Signal.{at, pick};
ghost use Rattle.lifting.specs.Line.{lo};
ghost use Rattle.lifting.specs.Grid.{side, count};
ghost use Rattle.filters.specs.Filters.{filter_of};
ghost use Rattle.level.specs.Tried.{outcome};
ghost use Rattle.level.specs.Stretch.{low_tried, high_tried, low_taken, has_low};
ghost use Rattle.level.specs.Rebuilding.{Kept};
ghost use Rattle.synthesis.specs.Columns.{along_of, even_of, columns_of};
ghost use Rattle.synthesis.specs.Work.{set_unlifted, even_done, pair_made, own_even, first_made, pair_before, most_made, own_made};
ghost use Rattle.synthesis.specs.Work.{last_made, rest_made, rows_made, set_made, set_worked};

use crate::rows;
use lifting::single;

// ---- along the rows

// The low row of set n, if there is one,
fn unlift_low(
    stretch: &mut [i32],
    filter: usize,
    w: usize,
    h: usize,
    x: usize,
    y: usize,
    n: usize,
) -> bool
    requires { (w ≤ 2 ^ 16) × ((filter_of filter).rows * w ≤ length stretch.old) × (n < 2 ^ 32) }
    ensures stretch_after { outcome result (at stretch.new) ≡
        low_tried (filter_of filter).rows (along_of filter) (side x w) (side y h) n (at stretch.old) }
    ensures kept { Kept ((filter_of filter).rows * w) (at stretch.old) (at stretch.new) }
{
    if n < y % 2 {
        return true;
    }
    rows::unlift_row(stretch, filter, w, x, 2 * n)
}

// the high row, if there is one,
fn unlift_high(
    stretch: &mut [i32],
    filter: usize,
    w: usize,
    h: usize,
    x: usize,
    y: usize,
    n: usize,
) -> bool
    requires { (w ≤ 2 ^ 16) × ((filter_of filter).rows * w ≤ length stretch.old) × (n < 2 ^ 32) × (h < 2 ^ 32) }
    ensures stretch_after { outcome result (at stretch.new) ≡
        high_tried (filter_of filter).rows (along_of filter) (side x w) (side y h) n (at stretch.old) }
    ensures kept { Kept ((filter_of filter).rows * w) (at stretch.old) (at stretch.new) }
{
    if y % 2 + h <= 2 * n + 1 {
        return true;
    }
    rows::unlift_row(stretch, filter, w, x, 2 * n + 1)
}

// and both.
pub fn unlift_set(
    stretch: &mut [i32],
    filter: usize,
    w: usize,
    h: usize,
    x: usize,
    y: usize,
    n: usize,
) -> bool
    requires { (w ≤ 2 ^ 16) × ((filter_of filter).rows * w ≤ length stretch.old) × (n < 2 ^ 32) × (h < 2 ^ 32) }
    ensures stretch_after { outcome result (at stretch.new) ≡ set_unlifted (columns_of filter) (side x w) (side y h) n (at stretch.old) }
    ensures kept { Kept ((filter_of filter).rows * w) (at stretch.old) (at stretch.new) }
{
    unlift_low(stretch, filter, w, h, x, y, n) && unlift_high(stretch, filter, w, h, x, y, n)
}

// ---- the columns

// The even row of set n, if there is one.
fn undo_low(stretch: &mut [i32], filter: usize, w: usize, h: usize, y: usize, n: usize)
    requires { (w ≤ 2 ^ 16) × ((filter_of filter).rows * w ≤ length stretch.old) × (n < 2 ^ 32) × (h < 2 ^ 32) }
    ensures { at stretch.new ≡
        pick (has_low (side y h) n) (even_of filter w (side y h) (2 * n) (at stretch.old)) (at stretch.old) }
{
    if n < y % 2 {
        return;
    }
    rows::undo_even(stretch, filter, w, h, y, 2 * n);
}

// The rows at 2m + 1 and 2m + 2 made.
fn make_pair(
    stretch: &mut [i32],
    filter: usize,
    k: usize,
    w: usize,
    h: usize,
    y: usize,
    m: usize,
) -> bool
    requires { (w ≤ 2 ^ 16) × ((filter_of filter).rows * w ≤ length stretch.old) × (m < 2 ^ 32) × (h < 2 ^ 32) × (k ≤ (filter_of filter).levels) × (1 < h) }
    ensures stretch_after { outcome result (at stretch.new) ≡ pair_made (columns_of filter) k w (side y h) m (at stretch.old) }
    ensures kept { Kept ((filter_of filter).rows * w) (at stretch.old) (at stretch.new) }
{
    rows::undo_odd(stretch, filter, w, h, y, 2 * m + 1);
    rows::admit_row(stretch, filter, k, w, 2 * m + 1)
        && rows::admit_row(stretch, filter, k, w, 2 * m + 2)
}

// ---- the rows that set n makes

// Whether set n makes its own even row: a first row at an even coordinate alone is made by its own set,
fn own_even(h: usize, y: usize, n: usize) -> bool
    ensures { result ≡ own_even (side y h) n }
{
    if n < y % 2 {
        return false;
    }
    n < 1
}

fn make_first(
    stretch: &[i32],
    filter: usize,
    k: usize,
    w: usize,
    h: usize,
    y: usize,
    n: usize,
) -> bool
    requires { (w ≤ 2 ^ 16) × ((filter_of filter).rows * w ≤ length stretch.now) × (n < 2 ^ 32) × (k ≤ (filter_of filter).levels) }
    ensures { outcome result (at stretch.now) ≡ first_made (columns_of filter) k w (side y h) n (at stretch.now) }
{
    if own_even(h, y, n) {
        return rows::admit_row(stretch, filter, k, w, 2 * n);
    }
    true
}

// the pair of j sets before set n, if there is one,
fn make_before(
    stretch: &mut [i32],
    filter: usize,
    j: usize,
    k: usize,
    w: usize,
    h: usize,
    y: usize,
    n: usize,
) -> bool
    requires { (w ≤ 2 ^ 16) × ((filter_of filter).rows * w ≤ length stretch.old) × (n < 2 ^ 32) × (h < 2 ^ 32) × (k ≤ (filter_of filter).levels)
        × (2 * n < y % 2 + h) × (0 < j) }
    ensures stretch_after { outcome result (at stretch.new) ≡ pair_before (columns_of filter) j k w (side y h) n (at stretch.old) }
    ensures kept { Kept ((filter_of filter).rows * w) (at stretch.old) (at stretch.new) }
{
    if n < j {
        return true;
    }
    make_pair(stretch, filter, k, w, h, y, n - j)
}

// and the even row with the first row and that pair at the look-ahead. The 5/3's are made in one pass.
fn make_most(
    stretch: &mut [i32],
    filter: usize,
    k: usize,
    w: usize,
    h: usize,
    y: usize,
    n: usize,
) -> bool
    requires { (w ≤ 2 ^ 16) × ((filter_of filter).rows * w ≤ length stretch.old) × (n < 2 ^ 32) × (h < 2 ^ 32) × (k ≤ (filter_of filter).levels)
        × (2 * n < y % 2 + h) }
    ensures stretch_after { outcome result (at stretch.new) ≡
        most_made (columns_of filter) k w (side y h) n (even_done (columns_of filter) k w (side y h) n (at stretch.old)) }
    ensures kept { Kept ((filter_of filter).rows * w) (at stretch.old) (at stretch.new) }
{
    if filter == 0 {
        if 0 < n {
            return rows::make_both(stretch, k, w, h, y, n);
        }
    }
    undo_low(stretch, filter, w, h, y, n);
    make_first(stretch, filter, k, w, h, y, n)
        && make_before(stretch, filter, filters::look_ahead(filter), k, w, h, y, n)
}

// Of the last set the pairs that are nearer than the look-ahead: the 5/3 has none, the 9/7 one,
fn make_own(
    stretch: &mut [i32],
    filter: usize,
    k: usize,
    w: usize,
    h: usize,
    y: usize,
    n: usize,
) -> bool
    requires { (w ≤ 2 ^ 16) × ((filter_of filter).rows * w ≤ length stretch.old) × (n < 2 ^ 32) × (h < 2 ^ 32) × (k ≤ (filter_of filter).levels)
        × (2 * n < y % 2 + h) }
    ensures stretch_after { outcome result (at stretch.new) ≡ own_made (columns_of filter) k w (side y h) n (at stretch.old) }
    ensures kept { Kept ((filter_of filter).rows * w) (at stretch.old) (at stretch.new) }
{
    if filter == 0 {
        return true;
    }
    make_before(stretch, filter, 1, k, w, h, y, n)
}

// the row at 2n + 1, if there is one,
fn make_last(
    stretch: &mut [i32],
    filter: usize,
    k: usize,
    w: usize,
    h: usize,
    y: usize,
    n: usize,
) -> bool
    requires { (w ≤ 2 ^ 16) × ((filter_of filter).rows * w ≤ length stretch.old) × (n < 2 ^ 32) × (h < 2 ^ 32) × (k ≤ (filter_of filter).levels) }
    ensures stretch_after { outcome result (at stretch.new) ≡ last_made (columns_of filter) k w (side y h) n (at stretch.old) }
    ensures kept { Kept ((filter_of filter).rows * w) (at stretch.old) (at stretch.new) }
{
    if y % 2 + h <= 2 * n + 1 {
        return true;
    }
    if single::is_single(h, y) {
        return rows::make_single(stretch, filter, k, w, 2 * n + 1);
    }
    rows::undo_odd(stretch, filter, w, h, y, 2 * n + 1);
    rows::admit_row(stretch, filter, k, w, 2 * n + 1)
}

// and all that is left, if no row comes after the set's own.
fn make_rest(
    stretch: &mut [i32],
    filter: usize,
    k: usize,
    w: usize,
    h: usize,
    y: usize,
    n: usize,
) -> bool
    requires { (w ≤ 2 ^ 16) × ((filter_of filter).rows * w ≤ length stretch.old) × (n < 2 ^ 32) × (h < 2 ^ 32) × (k ≤ (filter_of filter).levels)
        × (2 * n < y % 2 + h) }
    ensures stretch_after { outcome result (at stretch.new) ≡ rest_made (columns_of filter) k w (side y h) n (at stretch.old) }
    ensures kept { Kept ((filter_of filter).rows * w) (at stretch.old) (at stretch.new) }
{
    if 2 * n + 2 < y % 2 + h {
        return true;
    }
    make_own(stretch, filter, k, w, h, y, n) && make_last(stretch, filter, k, w, h, y, n)
}

// The rows of set n lifted back along the row, its even row rebuilt, and the rows that it makes made.
fn make_rows(
    stretch: &mut [i32],
    filter: usize,
    k: usize,
    w: usize,
    h: usize,
    y: usize,
    n: usize,
) -> bool
    requires { (w ≤ 2 ^ 16) × ((filter_of filter).rows * w ≤ length stretch.old) × (n < 2 ^ 32) × (h < 2 ^ 32) × (k ≤ (filter_of filter).levels)
        × (2 * n < y % 2 + h) }
    ensures stretch_after { outcome result (at stretch.new) ≡
        rows_made (columns_of filter) k w (side y h) n (even_done (columns_of filter) k w (side y h) n (at stretch.old)) }
    ensures kept { Kept ((filter_of filter).rows * w) (at stretch.old) (at stretch.new) }
{
    make_most(stretch, filter, k, w, h, y, n) && make_rest(stretch, filter, k, w, h, y, n)
}

fn make_set(
    stretch: &mut [i32],
    filter: usize,
    k: usize,
    w: usize,
    h: usize,
    x: usize,
    y: usize,
    n: usize,
) -> bool
    requires { (w ≤ 2 ^ 16) × ((filter_of filter).rows * w ≤ length stretch.old) × (n < 2 ^ 32) × (h < 2 ^ 32) × (k ≤ (filter_of filter).levels)
        × (2 * n < y % 2 + h) }
    ensures stretch_after { outcome result (at stretch.new) ≡ set_made (columns_of filter) k (side x w) (side y h) n (at stretch.old) }
    ensures kept { Kept ((filter_of filter).rows * w) (at stretch.old) (at stretch.new) }
{
    unlift_set(stretch, filter, w, h, x, y, n) && make_rows(stretch, filter, k, w, h, y, n)
}

// The low-low row of set n, if there is one, from the next level, if there is one.
pub fn take_low(
    stretch: &mut [i32],
    filter: usize,
    last: bool,
    w: usize,
    h: usize,
    x: usize,
    y: usize,
    n: usize,
)
    requires { (w ≤ 2 ^ 16) × ((filter_of filter).rows * w + (filter_of filter).rows * pick last 0 (count lo (side x w)) ≤ length stretch.old) ×
        (n < 2 ^ 32) }
    ensures stretch_after { at stretch.new ≡ low_taken (filter_of filter).rows last (side x w) (side y h) n (at stretch.old) }
    ensures kept { Kept ((filter_of filter).rows * w) (at stretch.old) (at stretch.new) }
{
    if last {
        return;
    }
    if n < y % 2 {
        return;
    }
    rows::take_low_row(stretch, filter, w, h, x, y, n);
}

// Set n of level k + 1 worked out.
pub fn work_set(
    stretch: &mut [i32],
    filter: usize,
    last: bool,
    k: usize,
    w: usize,
    h: usize,
    x: usize,
    y: usize,
    n: usize,
) -> bool
    requires { (w ≤ 2 ^ 16) × ((filter_of filter).rows * w + (filter_of filter).rows * pick last 0 (count lo (side x w)) ≤ length stretch.old) × (n < 2 ^ 32)
        × (h < 2 ^ 32) × (k ≤ (filter_of filter).levels)
        × (2 * n < y % 2 + h) }
    ensures stretch_after { outcome result (at stretch.new) ≡ set_worked (columns_of filter) last k (side x w) (side y h) n (at stretch.old) }
    ensures kept { Kept ((filter_of filter).rows * w) (at stretch.old) (at stretch.new) }
{
    take_low(stretch, filter, last, w, h, x, y, n);
    make_set(stretch, filter, k, w, h, x, y, n)
}
