// A set of a level made: its columns, then its rows along the row where they wait. The level's columns start at x, its rows at y.
// The module is private: only this crate, which meets what is required, can call it.
ghost use Rattle.std.specs.Prelude.{◌≡◌, ◌+◌, ◌*◌, ◌%◌, ◌≤◌, ◌<◌, length, ltb};
ghost use Rattle.numbers.specs.Signal.{at, pick};
ghost use Rattle.lifting.specs.Grid.{side};
ghost use Rattle.filters.specs.Filters.{filter_of};
ghost use Rattle.analysis.specs.Columns.{along_by, columns_of};
ghost use Rattle.analysis.specs.Sets.{rows_to, row_lifted, set_made};
ghost use Rattle.analysis.specs.Pairs.{is_pair, pair_columns, pair_made};

use crate::{columns, near, slots};
use level::moves;
use lifting::pairs::Pair;
use lifting::{line, pairs};
use nine_seven::line as nine_seven_line;

// A row in halves lifted.
fn lift_line(line: &mut [i32], filter: usize, x: usize)
    ensures { at line.new ≡ along_by (filter_of filter) (side x (length line.old)) (at line.old) }
{
    if filter == 0 {
        line::lift(line, x);
        return;
    }
    nine_seven_line::lift(line, x);
}

// The row in slot s lifted along the row, if the set has it.
fn lift_row(store: &mut [i32], filter: usize, w: usize, x: usize, has: bool, s: usize)
    requires { ((filter_of filter).rows * w ≤ length store.old) × (s < (filter_of filter).rows) }
    ensures { at store.new ≡ pick has (row_lifted (columns_of filter) (side x w) s (at store.old)) (at store.old) }
{
    if has {
        let a = s * w;
        let e = a + w;
        lift_line(&mut store[a..e], filter, x);
    }
}

// ---- the 5/3's sets of two rows, whose columns go in one pass

// The columns of set n, r being the slot of the even row after it. d(n−1) stands where d(n) is to wait; the first set has none.
fn pair_columns(store: &mut [i32], w: usize, n: usize, r: usize)
    requires { (4 * w ≤ length store.old) × (r < 4) }
    ensures { at store.new ≡ pair_columns w n r (at store.old) }
{
    let low = slots::slot_on(0, n, 0);
    let high = slots::slot_on(0, n, 1);
    let free = slots::slot_on(0, n, 3);
    if 0 < n {
        let rows = Pair {
            high,
            low,
            right: r,
            before: free,
        };
        let _ = pairs::lift_and_copy(store, w, w, rows);
    } else {
        let rows = Pair {
            high,
            low,
            right: r,
            before: high,
        };
        let _ = pairs::lift_pair(store, w, w, rows);
        let _ = moves::copy_row(store, w, high, free);
    }
}

// The set: its columns, then both rows along the row where they wait.
fn make_pair(store: &mut [i32], w: usize, x: usize, n: usize, r: usize)
    requires { (4 * w ≤ length store.old) × (r < 4) }
    ensures { at store.new ≡ pair_made (side x w) n r (at store.old) }
{
    pair_columns(store, w, n, r);
    lift_row(store, 0, w, x, true, slots::slot_on(0, n, 0));
    lift_row(store, 0, w, x, true, slots::slot_on(0, n, 3));
}

// Whether set n of m rows is such a set,
fn is_pair(filter: usize, y: usize, m: usize, n: usize) -> bool
    ensures { result ≡ is_pair filter (side y m) n }
{
    filter == 0 && (near::has_low(y, m, n) && near::has_high(y, m, n))
}

// and set n of the rows up to the one that completes it.
fn is_next_pair(filter: usize, y: usize, n: usize) -> bool
    ensures { result ≡ is_pair filter (rows_to 1 y n) n }
{
    filter == 0 && y % 2 <= n
}

// ---- whatever the filter

// Set n of m rows, the first at coordinate y.
pub fn make_set(store: &mut [i32], filter: usize, w: usize, x: usize, y: usize, m: usize, n: usize)
    requires { (filter_of filter).rows * w ≤ length store.old }
    ensures { at store.new ≡ set_made (columns_of filter) (side x w) (side y m) n (at store.old) }
{
    if is_pair(filter, y, m, n) {
        let by = near::beside_high(0, y, m, n);
        make_pair(store, w, x, n, by.right);
        return;
    }
    columns::make_columns(store, filter, w, y, m, n);
    lift_row(
        store,
        filter,
        w,
        x,
        near::has_low(y, m, n),
        slots::low_waits(filter, n),
    );
    lift_row(
        store,
        filter,
        w,
        x,
        near::has_high(y, m, n),
        slots::high_waits(filter, n),
    );
}

// A number of a set that is small and has the same slots: past the first ones, which go by mirrored rows, sets 4 on differ in nothing else.
fn reduced(n: usize) -> usize
    ensures { result ≡ pick (ltb n 4) n (4 + n % 4) }
{
    if n < 4 { n } else { 4 + n % 4 }
}

// Set n, the rows up to the one that completes it being there.
pub fn make_next(store: &mut [i32], filter: usize, w: usize, x: usize, y: usize, n: usize)
    requires { (filter_of filter).rows * w ≤ length store.old }
    ensures { at store.new ≡
        set_made (columns_of filter) (side x w) (rows_to (filter_of filter).ahead y n) n (at store.old) }
{
    if is_next_pair(filter, y, n) {
        make_pair(store, w, x, n, slots::slot_on(0, n, 2));
        return;
    }
    let k = reduced(n);
    let m = 2 * k + 2 * filters::look_ahead(filter) + 1 - y % 2;
    make_set(store, filter, w, x, y, m, k);
}
