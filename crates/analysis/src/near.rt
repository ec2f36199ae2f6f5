// Which rows a set has, and which rows a row goes by, mirrored at the ends. The level's rows start at y and are m; only the parity of y counts. Rows are told
// by their slots, and a slot by a row's number in its half, so that no coordinate can overflow. The module is private: only this crate, which meets what is
// required, can call it.
ghost use Rattle.std.specs.Prelude.{◌≡◌, ◌+◌, ◌-◌, ◌*◌, ◌%◌, ◌<◌, ◌≤◌};
ghost use Rattle.lifting.specs.Line.{lo, hi};
ghost use Rattle.lifting.specs.Grid.{side, count};
ghost use Rattle.filters.specs.Filters.{filter_of};
ghost use Rattle.analysis.specs.Columns.{row_before, row_after};
ghost use Rattle.analysis.specs.Sets.{has_row};

use crate::slots;
use nine_seven::near;
use nine_seven::near::{Four, Two};
use wavelet::sizes;

// Whether set n has a high row, and whether it has a low one.
pub fn has_high(y: usize, m: usize, n: usize) -> bool
    ensures { result ≡ has_row (side y m) hi n }
{
    n < sizes::high_count(y, m)
}

pub fn has_low(y: usize, m: usize, n: usize) -> bool
    ensures { result ≡ has_row (side y m) lo n }
{
    y % 2 <= n && n - y % 2 < sizes::low_count(y, m)
}

// The slot of low row number k, and of high row number k.
fn low_slot(filter: usize, y: usize, k: usize) -> usize
    ensures { (result ≡ 2 * (y % 2 + k) % (filter_of filter).rows) × (result < 8) }
{
    slots::slot_on(filter, y % 2 + k % 4, 0)
}

fn high_slot(filter: usize, k: usize) -> usize
    ensures { (result ≡ (2 * k + 1) % (filter_of filter).rows) × (result < 8) }
{
    slots::slot_on(filter, k, 1)
}

// The slots of the rows one before and one after row 2n,
pub fn beside_low(filter: usize, y: usize, m: usize, n: usize) -> Two
    requires { (1 < m) × (y % 2 ≤ n) × (n - y % 2 < count lo (side y m)) }
    ensures { (result.left ≡ row_before (side y m) 1 (2 * n) % (filter_of filter).rows) × (result.right ≡ row_after (side y m) 1 (2 * n) % (filter_of filter).rows) }
{
    let by = near::beside(sizes::high_count(y, m), 0, n);
    let left = high_slot(filter, by.left);
    Two {
        left,
        right: high_slot(filter, by.right),
    }
}

// those one before and one after row 2n + 1,
pub fn beside_high(filter: usize, y: usize, m: usize, n: usize) -> Two
    requires { (1 < m) × (n < count hi (side y m)) }
    ensures { (result.left ≡ row_before (side y m) 1 (2 * n + 1) % (filter_of filter).rows)
        × (result.right ≡ row_after (side y m) 1 (2 * n + 1) % (filter_of filter).rows) }
{
    let by = near::beside(sizes::low_count(y, m), 1 - y % 2, n);
    let left = low_slot(filter, y, by.left);
    Two {
        left,
        right: low_slot(filter, y, by.right),
    }
}

// and with them those three before and three after it.
pub fn around_high(filter: usize, y: usize, m: usize, n: usize) -> Four
    requires { (1 < m) × (n < count hi (side y m)) }
    ensures { (result.left ≡ row_before (side y m) 1 (2 * n + 1) % (filter_of filter).rows)
        × (result.right ≡ row_after (side y m) 1 (2 * n + 1) % (filter_of filter).rows)
        × (result.before ≡ row_before (side y m) 3 (2 * n + 1) % (filter_of filter).rows)
        × (result.after ≡ row_after (side y m) 3 (2 * n + 1) % (filter_of filter).rows) }
{
    let low = sizes::low_count(y, m);
    let by = near::around(low, sizes::high_count(y, m), 1 - y % 2, n);
    let left = low_slot(filter, y, by.left);
    let right = low_slot(filter, y, by.right);
    let before = low_slot(filter, y, by.before);
    Four {
        left,
        right,
        before,
        after: low_slot(filter, y, by.after),
    }
}
