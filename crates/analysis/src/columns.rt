// The columns of a set of m rows, the first at coordinate y: row 2n + 1 becomes high, row 2n becomes low in the slot where it waits, and the high row is copied
// to its own. Slots are told by a set's number modulo 4, so that no number of a row can overflow.
// The module is private: only this crate, which meets what is required, can call it.
ghost use Rattle.std.specs.Prelude.{◌≡◌, true, ◌+◌, ◌*◌, ◌<◌, ◌≤◌, length};
ghost use Rattle.numbers.specs.Signal.{at};
ghost use Rattle.lifting.specs.Line.{lo, hi};
ghost use Rattle.lifting.specs.Grid.{side};
ghost use Rattle.filters.specs.Filters.{filter_of};
ghost use Rattle.analysis.specs.Columns.{predicted_of, high_of, low_of, columns_of};
ghost use Rattle.analysis.specs.Sets.{has_row, waits_at, row_copied, high_made, low_made, high_copied, columns_made};

use crate::{near, slots};
use level::moves;
use lifting::rows;
use lifting::step::{Predict, Unpredict, Update};
use nine_seven::rows as nine_seven_rows;

// ---- the filter's own steps

// Row 2n + 1 by the even rows one place off, and for the 9/7 by those three places off.
fn predict_row(store: &mut [i32], filter: usize, w: usize, y: usize, m: usize, n: usize)
    requires { ((filter_of filter).rows * w ≤ length store.old) × (1 < m) × (has_row (side y m) hi n ≡ true) }
    ensures { at store.new ≡ predicted_of filter w (side y m) (2 * n + 1) (at store.old) }
{
    if filter == 0 {
        let high = slots::slot_on(0, n, 1);
        let by = near::beside_high(0, y, m, n);
        let _ = rows::change_row::<Predict>(store, w, w, high, by.left, by.right);
        return;
    }
    let high = slots::slot_on(1, n, 1);
    let by = near::around_high(1, y, m, n);
    nine_seven_rows::predict_row(store, w, w, high, by.left, by.right, by.before, by.after);
}

// What stands where the low row of set n waits, a copy of row 2n, by the high rows beside that row; an only row stays.
fn update_row(store: &mut [i32], filter: usize, w: usize, y: usize, m: usize, n: usize)
    requires { ((filter_of filter).rows * w ≤ length store.old) × (has_row (side y m) lo n ≡ true) }
    ensures { at store.new ≡
        low_of filter w (side y m) (waits_at (filter_of filter).ahead lo n) (2 * n) (at store.old) }
{
    if m < 2 {
        return;
    }
    if filter == 0 {
        let t = slots::low_waits(0, n);
        let by = near::beside_low(0, y, m, n);
        let _ = rows::change_row::<Update>(store, w, w, t, by.left, by.right);
        return;
    }
    let t = slots::low_waits(1, n);
    let by = near::beside_low(1, y, m, n);
    nine_seven_rows::update_row(store, w, w, t, by.left, by.right);
}

// Row 2n to where the low row waits. The 5/3 needs it no more, and its low row waits where it stands.
fn copy_low(store: &mut [i32], filter: usize, w: usize, n: usize)
    requires { (filter_of filter).rows * w ≤ length store.old }
    ensures { at store.new ≡
        row_copied (columns_of filter) w (2 * n) (waits_at (filter_of filter).ahead lo n) (at store.old) }
{
    if filter == 0 {
        return;
    }
    let _ = moves::copy_row(store, w, slots::slot_on(1, n, 0), slots::low_waits(1, n));
}

// ---- whatever the filter

// An only row at an odd coordinate: each number and the mean of itself and itself, the number doubled.
fn double_row(store: &mut [i32], filter: usize, w: usize, y: usize, m: usize, n: usize)
    requires { ((filter_of filter).rows * w ≤ length store.old) × (m ≤ 1) }
    ensures { at store.new ≡ high_of filter w (side y m) (2 * n + 1) (at store.old) }
{
    let high = slots::slot_on(filter, n, 1);
    let _ = rows::change_row::<Unpredict>(store, w, w, high, high, high);
}

// The high row of set n, if it has one,
fn make_high(store: &mut [i32], filter: usize, w: usize, y: usize, m: usize, n: usize)
    requires { (filter_of filter).rows * w ≤ length store.old }
    ensures { at store.new ≡ high_made (columns_of filter) w (side y m) n (at store.old) }
{
    if near::has_high(y, m, n) {
        if 1 < m {
            predict_row(store, filter, w, y, m, n);
        } else {
            double_row(store, filter, w, y, m, n);
        }
    }
}

// its low row where it waits, if it has one,
fn make_low(store: &mut [i32], filter: usize, w: usize, y: usize, m: usize, n: usize)
    requires { (filter_of filter).rows * w ≤ length store.old }
    ensures { at store.new ≡ low_made (columns_of filter) w (side y m) n (at store.old) }
{
    if near::has_low(y, m, n) {
        copy_low(store, filter, w, n);
        update_row(store, filter, w, y, m, n);
    }
}

// and the high row copied to where it waits.
fn copy_high(store: &mut [i32], filter: usize, w: usize, y: usize, m: usize, n: usize)
    requires { (filter_of filter).rows * w ≤ length store.old }
    ensures { at store.new ≡ high_copied (columns_of filter) w (side y m) n (at store.old) }
{
    if near::has_high(y, m, n) {
        let _ = moves::copy_row(
            store,
            w,
            slots::slot_on(filter, n, 1),
            slots::high_waits(filter, n),
        );
    }
}

// All three.
pub fn make_columns(store: &mut [i32], filter: usize, w: usize, y: usize, m: usize, n: usize)
    requires { (filter_of filter).rows * w ≤ length store.old }
    ensures { at store.new ≡ columns_made (columns_of filter) w (side y m) n (at store.old) }
{
    make_high(store, filter, w, y, m, n);
    make_low(store, filter, w, y, m, n);
    copy_high(store, filter, w, y, m, n);
}
