// One row of a level in its stretch of the line store: lifted back along the row, rebuilt by other rows of its columns, tested. The level's columns start at x,
// its rows at y. A row is told by its coordinate past the last even one that is not after y, and the row at q stands in slot q modulo the rows kept.
// The module is private: only this crate, which meets what is required, can call it.
ghost use Rattle.std.specs.Prelude.{◌≡◌, ◌+◌, ◌*◌, ◌%◌, ◌<◌, ◌≤◌, ◌^◌, length};
ghost use Rattle.numbers.specs.Signal.{at, pick};
ghost use Rattle.lifting.specs.Line.{lo};
ghost use Rattle.lifting.specs.Grid.{side, count};
ghost use Rattle.lifting.specs.GridHalves.{has_line_in};
ghost use Rattle.filters.specs.Filters.{filter_of};
ghost use Rattle.wavelet.specs.Order.{first_set};
ghost use Rattle.level.specs.Tried.{outcome};
ghost use Rattle.level.specs.Rebuilding.{Kept};
ghost use Rattle.level.specs.Stretch.{row_place, line_tried, low_row_taken};
ghost use Rattle.synthesis.specs.Columns.{along_of, even_of, odd_of, columns_of};
ghost use Rattle.synthesis.specs.Work.{row_fits, single_made, even_done, most_made};

use crate::{neighbours, range};
use areas::{lines, ranges};
use level::sets;
use lifting::pairs::Pair;
use lifting::step::{Unpredict, Unupdate};
use lifting::{line, pairs, rows, single};
use nine_seven::{line as nine_seven_line, rows as nine_seven_rows};
use wavelet::sizes;

// ---- the filter's own steps

// The slot of the row at q. The rows kept are a number of the branch, so that the remainder is no division.
fn slot(filter: usize, q: usize) -> usize
    ensures { (result ≡ q % (filter_of filter).rows) × (result < 8) }
{
    if filter == 0 {
        return q % 4;
    }
    q % 8
}

// A row in halves lifted back.
fn unlift_line(line: &mut [i32], filter: usize, x: usize) -> u8
    ensures value { result ≡ pick (has_line_in (side x (length line.old)) (at line.old)) 0 14 }
    ensures line_after { at line.new ≡ pick (has_line_in (side x (length line.old)) (at line.old))
        (along_of filter (side x (length line.old)) (at line.old)) (at line.old) }
{
    if filter == 0 {
        return refusal::code(line::unlift(line, x));
    }
    nine_seven_line::unlift(line, x)
}

// The row at q, even, by the high rows next to it; an only row stays.
pub fn undo_even(stretch: &mut [i32], filter: usize, w: usize, h: usize, y: usize, q: usize)
    requires { (w ≤ 2 ^ 16) × ((filter_of filter).rows * w ≤ length stretch.old) × (q ≤ 2 ^ 34) × (h < 2 ^ 32) }
    ensures { at stretch.new ≡ even_of filter w (side y h) q (at stretch.old) }
{
    if h < 2 {
        return;
    }
    let a = neighbours::row_before(h, y, 1, q);
    let b = neighbours::row_after(h, y, 1, q);
    if filter == 0 {
        let _ = rows::change_row::<Unupdate>(stretch, w, w, q % 4, a % 4, b % 4);
        return;
    }
    nine_seven_rows::unupdate_row(stretch, w, w, q % 8, a % 8, b % 8);
}

// The row at q, odd, by the even rows one place off, and for the 9/7 by those three places off.
pub fn undo_odd(stretch: &mut [i32], filter: usize, w: usize, h: usize, y: usize, q: usize)
    requires { (w ≤ 2 ^ 16) × ((filter_of filter).rows * w ≤ length stretch.old) × (q ≤ 2 ^ 34) × (h < 2 ^ 32) × (1 < h) }
    ensures { at stretch.new ≡ odd_of filter w (side y h) q (at stretch.old) }
{
    let a = neighbours::row_before(h, y, 1, q);
    let b = neighbours::row_after(h, y, 1, q);
    if filter == 0 {
        let _ = rows::change_row::<Unpredict>(stretch, w, w, q % 4, a % 4, b % 4);
        return;
    }
    let c = neighbours::row_before(h, y, 3, q);
    let e = neighbours::row_after(h, y, 3, q);
    nine_seven_rows::unpredict_row(stretch, w, w, q % 8, a % 8, b % 8, c % 8, e % 8);
}

// The even row of set n and the odd row before it, of the 5/3, rebuilt and tested in one pass.
pub fn make_both(stretch: &mut [i32], k: usize, w: usize, h: usize, y: usize, n: usize) -> bool
    requires { (w ≤ 2 ^ 16) × (4 * w ≤ length stretch.old) × (n < 2 ^ 32) × (h < 2 ^ 32) × (k ≤ (filter_of 0).levels) × (0 < n) × (2 * n < y % 2 + h) }
    ensures stretch_after { outcome result (at stretch.new) ≡
        most_made (columns_of 0) k w (side y h) n (even_done (columns_of 0) k w (side y h) n (at stretch.old)) }
    ensures kept { Kept (4 * w) (at stretch.old) (at stretch.new) }
{
    let r = neighbours::row_after(h, y, 1, 2 * n);
    let b = neighbours::row_before(h, y, 1, 2 * n - 1);
    let least = range::lowest_of(0, k);
    let most = filters::range_of(0, k);
    let pair = Pair {
        high: (2 * n - 1) % 4,
        low: 2 * n % 4,
        right: r % 4,
        before: b % 4,
    };
    pairs::unlift_pair(stretch, w, w, pair, least, most).is_ok()
}

// ---- whatever the filter

// Where the row at q begins.
pub fn row_place(filter: usize, w: usize, q: usize) -> usize
    requires { w ≤ 2 ^ 16 }
    ensures { (result ≡ row_place (filter_of filter).rows w q) × (result + w ≤ (filter_of filter).rows * w) × (result ≤ 2 ^ 19) }
{
    slot(filter, q) * w
}

// The row at q lifted back along the row; false where an only number, at an odd coordinate, is odd.
pub fn unlift_row(stretch: &mut [i32], filter: usize, w: usize, x: usize, q: usize) -> bool
    requires { (w ≤ 2 ^ 16) × ((filter_of filter).rows * w ≤ length stretch.old) }
    ensures stretch_after { outcome result (at stretch.new) ≡
        line_tried (filter_of filter).rows (along_of filter) (side x w) q (at stretch.old) }
    ensures kept { Kept ((filter_of filter).rows * w) (at stretch.old) (at stretch.new) }
{
    let a = row_place(filter, w, q);
    let e = a + w;
    unlift_line(&mut stretch[a..e], filter, x) == 0
}

// The test of 14 of the row at q.
pub fn admit_row(stretch: &[i32], filter: usize, k: usize, w: usize, q: usize) -> bool
    requires { (w ≤ 2 ^ 16) × ((filter_of filter).rows * w ≤ length stretch.now) × (k ≤ (filter_of filter).levels) }
    ensures { result ≡ row_fits (columns_of filter) k w q (at stretch.now) }
{
    let a = row_place(filter, w, q);
    let e = a + w;
    ranges::all_between(
        &stretch[a..e],
        range::lowest_of(filter, k),
        filters::range_of(filter, k),
    )
}

// An only row made, at an odd coordinate: each of its numbers halved, if all are even.
pub fn make_single(stretch: &mut [i32], filter: usize, k: usize, w: usize, q: usize) -> bool
    requires { (w ≤ 2 ^ 16) × ((filter_of filter).rows * w ≤ length stretch.old) × (k ≤ (filter_of filter).levels) }
    ensures stretch_after { outcome result (at stretch.new) ≡ single_made (columns_of filter) k w q (at stretch.old) }
    ensures kept { Kept ((filter_of filter).rows * w) (at stretch.old) (at stretch.new) }
{
    let a = row_place(filter, w, q);
    let e = a + w;
    single::halve_even(&mut stretch[a..e]) && admit_row(stretch, filter, k, w, q)
}

// The low-low row of set n from the next level's memory, which follows this one's.
pub fn take_low_row(
    stretch: &mut [i32],
    filter: usize,
    w: usize,
    h: usize,
    x: usize,
    y: usize,
    n: usize,
)
    requires { (w ≤ 2 ^ 16) × ((filter_of filter).rows * w + (filter_of filter).rows * count lo (side x w) ≤ length stretch.old) × (n ≤ 2 ^ 32)
        × (first_set (side y h) lo ≤ n) }
    ensures { at stretch.new ≡ low_row_taken (filter_of filter).rows (side x w) (side y h) n (at stretch.old) }
{
    let low = sizes::low_count(x, w);
    let from = filters::rows_kept(filter) * w + row_place(filter, low, sets::low_row(y, n));
    let to = row_place(filter, w, 2 * n);
    let _ = lines::interleave_down(stretch, sizes::next_start(x), from, to, low);
}
