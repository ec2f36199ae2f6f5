// The columns of a level back. Its rows stand in their own order.
// The module is private: only `columns`, which meets what is required, can call it.
ghost use Rattle.std.specs.Prelude.{◌≡◌, ◌+◌, ◌-◌, ◌%◌, ◌<◌, ◌≤◌, length};
ghost use Rattle.numbers.specs.Signal.{at};
ghost use Rattle.numbers.specs.Word.{wrap32};
ghost use Rattle.lifting.specs.Line.{lo, hi};
ghost use Rattle.lifting.specs.Grid.{side, count, place};
ghost use Rattle.nine_seven.specs.NineSeven.{unpredicted, unupdated};
ghost use Rattle.nine_seven_sweep.specs.Columns.{columns_back};
ghost use Rattle.nine_seven_sweep.specs.Passes.{Rows, high_changed, low_changed, high_turn, low_turn};

use nine_seven::{near, rows};

// Low row n without its update by the high rows beside it,
fn unupdate(area: &mut [i32], stride: usize, width: usize, y: usize, height: usize, n: usize)
    requires { (1 < height) × (n < count lo (side y height)) × (height ≤ length area.old + 1) }
    ensures { at area.new ≡
        low_changed (unupdated wrap32) (place (side y height)) (length area.old) stride width (side y height) n (at area.old) }
{
    let b = y % 2;
    let by = near::beside(height - near::lows(height, y), b, n);
    rows::unupdate_row(
        area,
        stride,
        width,
        2 * n + b,
        2 * by.left + (1 - b),
        2 * by.right + (1 - b),
    );
}

// and high row n without its prediction by the low rows beside it and those farther off.
fn unpredict(area: &mut [i32], stride: usize, width: usize, y: usize, height: usize, n: usize)
    requires { (1 < height) × (n < count hi (side y height)) × (height ≤ length area.old + 1) }
    ensures { at area.new ≡
        high_changed (unpredicted wrap32) (place (side y height)) (length area.old) stride width (side y height) n (at area.old) }
{
    let low = near::lows(height, y);
    let b = y % 2;
    let by = near::around(low, height - low, 1 - b, n);
    rows::unpredict_row(
        area,
        stride,
        width,
        2 * n + (1 - b),
        2 * by.left + b,
        2 * by.right + b,
        2 * by.before + b,
        2 * by.after + b,
    );
}

// The same in turn n: where there is a low row n,
fn unupdate_next(area: &mut [i32], stride: usize, width: usize, y: usize, height: usize, n: usize)
    requires { (1 < height) × (height ≤ length area.old + 1) }
    ensures { at area.new ≡
        low_turn (unupdated wrap32) (place (side y height)) (length area.old) stride width (side y height) n 0 (at area.old) }
{
    if near::lows(height, y) <= n {
        return;
    }
    unupdate(area, stride, width, y, height, n);
}

// and the high row that goes by none after it.
fn unpredict_behind(
    area: &mut [i32],
    stride: usize,
    width: usize,
    y: usize,
    height: usize,
    n: usize,
)
    requires { (1 < height) × (n ≤ count hi (side y height) + (1 - y % 2)) × (height ≤ length area.old + 1) }
    ensures { at area.new ≡
        high_turn (unpredicted wrap32) (place (side y height)) (length area.old) stride width (side y height) n (2 - y % 2)
        (at area.old) }
{
    let behind = 2 - y % 2;
    if n < behind {
        return;
    }
    unpredict(area, stride, width, y, height, n - behind);
}

// Both. That it is called twice, in the loop and once behind it, keeps it from being inlined: in one loop over rows of one area the compiler asks once for all
// rows whether they overlap, and then leaves vector code (docs/PROVING.md).
fn unlift_turn(area: &mut [i32], stride: usize, width: usize, y: usize, height: usize, n: usize)
    requires { (1 < height) × (n ≤ count hi (side y height) + (1 - y % 2)) × (height ≤ length area.old + 1) }
    ensures { at area.new ≡
        high_turn (unpredicted wrap32) (place (side y height)) (length area.old) stride width (side y height) n (2 - y % 2)
        (low_turn (unupdated wrap32) (place (side y height)) (length area.old) stride width (side y height) n 0 (at area.old)) }
{
    unupdate_next(area, stride, width, y, height, n);
    unpredict_behind(area, stride, width, y, height, n);
}

// All columns of more than one row. The high row whose last low row has been lifted back comes next, while they are near.
pub fn unlift_rows(area: &mut [i32], stride: usize, width: usize, y: usize, height: usize)
    requires { Rows (length area.old) stride width height × (1 < height) }
    ensures { at area.new ≡ columns_back stride width (side y height) (at area.old) }
{
    let last = height - near::lows(height, y) + 1 - y % 2;
    for n in 0..last {
        unlift_turn(area, stride, width, y, height, n);
    }
    unlift_turn(area, stride, width, y, height, last);
}
