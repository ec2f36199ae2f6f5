// The columns of a level forward. Its rows stand as the numbers of a column do, in halves: the low rows first.
// The module is private: only `columns`, which meets what is required, can call it.
ghost use Rattle.std.specs.Prelude.{◌≡◌, ◌+◌, ◌-◌, ◌%◌, ◌<◌, ◌≤◌, length};
ghost use Rattle.numbers.specs.Signal.{at};
ghost use Rattle.numbers.specs.Word.{wrap32};
ghost use Rattle.lifting.specs.Line.{lo, hi};
ghost use Rattle.lifting.specs.Grid.{side, count};
ghost use Rattle.nine_seven.specs.NineSeven.{predicted, updated};
ghost use Rattle.nine_seven_sweep.specs.Columns.{columns_lifted};
ghost use Rattle.nine_seven_sweep.specs.Passes.{Rows, in_half, high_changed, low_changed, high_turn, low_turn};

use nine_seven::{near, rows};

// High row n predicted by the low rows beside it and those farther off,
fn predict(area: &mut [i32], stride: usize, width: usize, y: usize, height: usize, n: usize)
    requires { (1 < height) × (n < count hi (side y height)) }
    ensures { at area.new ≡
        high_changed (predicted wrap32) (in_half (side y height)) (length area.old) stride width (side y height) n (at area.old) }
{
    let low = near::lows(height, y);
    let by = near::around(low, height - low, 1 - y % 2, n);
    rows::predict_row(
        area,
        stride,
        width,
        low + n,
        by.left,
        by.right,
        by.before,
        by.after,
    );
}

// and low row n updated by the high rows beside it.
fn update(area: &mut [i32], stride: usize, width: usize, y: usize, height: usize, n: usize)
    requires { (1 < height) × (n < count lo (side y height)) }
    ensures { at area.new ≡
        low_changed (updated wrap32) (in_half (side y height)) (length area.old) stride width (side y height) n (at area.old) }
{
    let low = near::lows(height, y);
    let by = near::beside(height - low, y % 2, n);
    rows::update_row(area, stride, width, n, low + by.left, low + by.right);
}

// The same in turn n: where there is a high row n,
fn predict_next(area: &mut [i32], stride: usize, width: usize, y: usize, height: usize, n: usize)
    requires { 1 < height }
    ensures { at area.new ≡
        high_turn (predicted wrap32) (in_half (side y height)) (length area.old) stride width (side y height) n 0 (at area.old) }
{
    if height - near::lows(height, y) <= n {
        return;
    }
    predict(area, stride, width, y, height, n);
}

// and the low row that no high row after n goes by.
fn update_behind(area: &mut [i32], stride: usize, width: usize, y: usize, height: usize, n: usize)
    requires { (1 < height) × (n ≤ count lo (side y height) + y % 2) }
    ensures { at area.new ≡
        low_turn (updated wrap32) (in_half (side y height)) (length area.old) stride width (side y height) n (1 + y % 2) (at area.old) }
{
    let behind = 1 + y % 2;
    if n < behind {
        return;
    }
    update(area, stride, width, y, height, n - behind);
}

// All columns of more than one row. A high row is predicted while its low rows are near, and the low row that it has been the last to go by is updated.
pub fn lift_rows(area: &mut [i32], stride: usize, width: usize, y: usize, height: usize)
    requires { Rows (length area.old) stride width height × (1 < height) }
    ensures { at area.new ≡ columns_lifted stride width (side y height) (at area.old) }
{
    let end = near::lows(height, y) + 1 + y % 2;
    for n in 0..end {
        predict_next(area, stride, width, y, height, n);
        update_behind(area, stride, width, y, height, n);
    }
}
