// The columns of a level, all of them lifted in place: `height` rows of `width` numbers, `stride` apart, the first of them at coordinate `y` of the grid, any
// number: only whether it is odd counts. Both calls answer 5, with nothing changed, where a row does not lie in the area or is wider than the stride.
ghost use Rattle.std.specs.Prelude.{◌≡◌, true, ◌-◌, ◌≤◌, length};
ghost use Rattle.numbers.specs.Signal.{at, pick, both};
ghost use Rattle.lifting.specs.Grid.{side};
ghost use Rattle.nine_seven_sweep.specs.Columns.{columns_fit, columns_lifted, columns_back, columns_have};
ghost use Rattle.nine_seven_sweep.specs.Passes.{Rows};

use crate::{back, forth};
use lifting::{rows, single};

fn columns_fit(n: usize, stride: usize, width: usize, height: usize) -> bool
    ensures { result ≡ columns_fit n stride width height }
{
    if height == 0 {
        return rows::row_fits(n, stride, width, 0);
    }
    rows::row_fits(n, stride, width, height - 1)
}

// The numbers of an only row at an odd coordinate are doubled.
fn lift_all(area: &mut [i32], stride: usize, width: usize, y: usize, height: usize)
    requires { Rows (length area.old) stride width height }
    ensures { at area.new ≡ columns_lifted stride width (side y height) (at area.old) }
{
    if 1 < height {
        forth::lift_rows(area, stride, width, y, height);
        return;
    }
    if !single::is_single(height, y) {
        return;
    }
    single::double_all(&mut area[0..width]);
}

// All columns, the rows being in halves, the low ones first.
pub fn lift_columns(area: &mut [i32], stride: usize, width: usize, y: usize, height: usize) -> u8
    ensures answer { result ≡ pick (columns_fit (length area.old) stride width height) 0 5 }
    ensures area { at area.new ≡
        pick (columns_fit (length area.old) stride width height) (columns_lifted stride width (side y height) (at area.old))
        (at area.old) }
{
    if !columns_fit(area.len(), stride, width, height) {
        return 5;
    }
    if width == 0 {
        return 0;
    }
    lift_all(area, stride, width, y, height);
    0
}

// Whether each column is a line's: the numbers of an only row at an odd coordinate are halved, so they have to be even.
fn columns_have(area: &[i32], width: usize, y: usize, height: usize) -> bool
    requires { width ≤ length area.now }
    ensures { result ≡ columns_have width (side y height) (at area.now) }
{
    if !single::is_single(height, y) {
        return true;
    }
    single::all_even(&area[0..width])
}

fn unlift_all(area: &mut [i32], stride: usize, width: usize, y: usize, height: usize)
    requires { Rows (length area.old) stride width height }
    ensures { at area.new ≡ columns_back stride width (side y height) (at area.old) }
{
    if 1 < height {
        back::unlift_rows(area, stride, width, y, height);
        return;
    }
    if !single::is_single(height, y) {
        return;
    }
    single::halve_all(&mut area[0..width]);
}

// All columns back, the rows being in their own order. After 5, 14, with nothing changed, for an odd number of an only row at an odd coordinate.
pub fn unlift_columns(area: &mut [i32], stride: usize, width: usize, y: usize, height: usize) -> u8
    ensures answer { result ≡
        pick (columns_fit (length area.old) stride width height)
        (pick (columns_have width (side y height) (at area.old)) 0 14) 5 }
    ensures area { at area.new ≡
        pick (both (columns_fit (length area.old) stride width height) (columns_have width (side y height) (at area.old)))
        (columns_back stride width (side y height) (at area.old)) (at area.old) }
{
    if !columns_fit(area.len(), stride, width, height) {
        return 5;
    }
    if width == 0 {
        return 0;
    }
    if !columns_have(area, width, y, height) {
        return 14;
    }
    unlift_all(area, stride, width, y, height);
    0
}
