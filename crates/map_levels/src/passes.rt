// Passes over the rows of one area: `height` rows of `width` numbers, `stride` apart, x and y where they start on the grid. The module is private, as `rowwise`
// is.
ghost use Rattle.std.specs.Prelude.{◌≡◌, ◌+◌, ◌-◌, ◌*◌, ◌<◌, ◌≤◌, length};
ghost use Rattle.numbers.specs.Signal.{at, pick};
ghost use Rattle.lifting.specs.Grid.{side, single_high};
ghost use Rattle.nine_seven.specs.Memory.{lifted_in_place as nine_seven_in_place};
ghost use Rattle.nine_seven.specs.NineSevenFilter.{nine_seven_filter};
ghost use Rattle.wavelet.specs.Limits.{max_width};
ghost use Rattle.wavelet.specs.Plane.{cells, flat};
ghost use Rattle.map_levels.specs.Rowwise.{interleaved_in_place, doubled_in_place};
ghost use Rattle.map_levels.specs.Passes.{after, rows_mapped, Rows};
ghost use Rattle.map_levels.specs.ByFilter.{level_lifted_by};
ghost use Rattle.map_levels.specs.LevelPasses.{row_lifted, level_lifted, rows_between};
ghost use Rattle.map_levels.specs.Sides.{columns, rows};

use crate::rowwise;
use crate::sides::Sides;
use lifting::{line, single};
use nine_seven_sweep::columns;

// The row after row r of `height` rows, mirrored at the end.
pub fn row_after(height: usize, r: usize) -> usize
    requires { (r < height) × (1 < height) }
    ensures { (result ≡ after height r) × (result < height) }
{
    if r + 1 < height { r + 1 } else { r - 1 }
}

// Row r, in halves, lifted in place.
pub fn lift_row(area: &mut [i32], stride: usize, x: usize, width: usize, r: usize)
    requires { (width ≤ stride) × (r * stride + width ≤ length area.old) }
    ensures { at area.new ≡ row_lifted stride (side x width) r (at area.old) }
{
    let a = r * stride;
    let e = a + width;
    line::lift(&mut area[a..e], x);
}

// The columns of a level of one row: they are doubled at an odd coordinate, and stay at an even one.
fn lift_single(area: &mut [i32], width: usize, y: usize)
    requires { width ≤ length area.old }
    ensures { at area.new ≡ pick (single_high (side y 1)) (doubled_in_place width (at area.old)) (at area.old) }
{
    if y % 2 == 1 {
        single::double_all(&mut area[0..width]);
    }
}

// A level of one row forward by the 5/3, in place.
pub fn lift_one(area: &mut [i32], stride: usize, sides: Sides)
    requires { Rows (length area.old) stride sides.width sides.height × (sides.height < 2) }
    ensures { at area.new ≡ flat stride (level_lifted (columns sides) (rows sides) (cells stride (at area.old))) }
{
    lift_single(area, sides.width, sides.y);
    lift_row(area, stride, sides.x, sides.width, 0);
}

// Each row, in halves, lifted in place by the 9/7.
fn lift_rows(area: &mut [i32], stride: usize, x: usize, width: usize, height: usize)
    requires { Rows (length area.old) stride width height }
    ensures { at area.new ≡
        flat stride (rows_mapped (nine_seven_in_place (side x width)) width height (cells stride (at area.old))) }
{
    for r in 0..height {
        let a = r * stride;
        let e = a + width;
        nine_seven::line::lift(&mut area[a..e], x);
    }
}

// A level forward by the 9/7, in place: all columns, then all rows.
pub fn lift_nine_seven(area: &mut [i32], stride: usize, sides: Sides)
    requires { Rows (length area.old) stride sides.width sides.height }
    ensures { at area.new ≡
        flat stride (level_lifted_by nine_seven_filter (columns sides) (rows sides) (cells stride (at area.old))) }
{
    columns::lift_columns(area, stride, sides.width, sides.y, sides.height);
    lift_rows(area, stride, sides.x, sides.width, sides.height);
}

// Each row from halves into its own order, through one line for all of them; and whether each number of them lies from `low` to `high`.
pub fn interleave_rows(
    area: &mut [i32],
    stride: usize,
    x: usize,
    width: usize,
    height: usize,
    low: i32,
    high: i32,
) -> bool
    requires { Rows (length area.old) stride width height × (width + width ≤ max_width + 1) }
    ensures value { result ≡ rows_between 0 height 0 width low high (cells stride (at area.old)) }
    ensures area_after { at area.new ≡
        flat stride (rows_mapped (interleaved_in_place (side x width)) width height (cells stride (at area.old))) }
{
    let mut line = [0; rowwise::LONGEST];
    let mut ok = true;
    for r in 0..height {
        let a = r * stride;
        let e = a + width;
        ok = ok & rowwise::interleave(&mut area[a..e], x, &mut line, low, high);
    }
    ok
}
