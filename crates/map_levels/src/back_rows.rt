// The rows of a level on their way back: from the plane and the low-low part into a line, and from a line to the heights or to the front of the work area.
// The low-low part stands at the end of the work area, so that no row of it is written over before it is read. The module is private, as `rowwise` is.
ghost use Rattle.std.specs.Prelude.{◌≡◌, true, ℕ, ◌+◌, ◌*◌, ◌%◌, ◌^◌, ◌<◌, ◌≤◌, ℤ, length};
ghost use Rattle.numbers.specs.Signal.{at, windowed};
ghost use Rattle.lifting.specs.Line.{lo};
ghost use Rattle.lifting.specs.Grid.{side, count};
ghost use Rattle.lifting.specs.GridHalves.{highs_laid};
ghost use Rattle.areas.specs.Areas.{heights_at};
ghost use Rattle.lifting.specs.FiveThree.{five_three_filter};
ghost use Rattle.wavelet.specs.Maps.{every, value_fits};
ghost use Rattle.map_levels.specs.Rowwise.{cut};
ghost use Rattle.map_levels.specs.Passes.{Rows};
ghost use Rattle.map_levels.specs.SweepBack.{short_unlifted, low_place, band_rows, RowPut};
ghost use Rattle.map_levels.specs.BackLines.{IsHeight, LineMade};
ghost use Rattle.map_levels.specs.Sides.{columns, rows};

use crate::sides::Sides;
use crate::{level_ranges, short_back, small};
use wavelet::sizes;

// Where the low-low part of a level begins in its work area.
pub fn low_place(sides: Sides) -> usize
    requires { sides.width * sides.height < 2 ^ 63 }
    ensures { result ≡ low_place (columns sides) (rows sides) }
{
    sides.width * sides.height
        - sizes::low_count(sides.x, sides.width) * sizes::low_count(sides.y, sides.height)
}

// The row at place a of the plane lifted back into the line at place `to`.
fn unlift_whole(plane: &[i32], a: usize, x: usize, width: usize, lines: &mut [i32], to: usize)
    requires { (0 < width) × (a + width ≤ length plane.now) × (to + width ≤ length lines.old) }
    ensures { LineMade to width (short_unlifted (side x width) (highs_laid (side x width) (windowed a width (at plane.now))
        (windowed a (count lo (side x width)) (at plane.now)))) (at lines.old) (at lines.new) }
{
    let c = a + sizes::low_count(x, width);
    let e = a + width;
    let f = to + width;
    short_back::unlift(&plane[a..c], &plane[a..e], x, &mut lines[to..f]);
}

// The same of a row whose low half stands at place b of another area. That the lifting has two callers keeps it a function by itself, which takes few numbers;
// a narrow row would pay for more.
fn unlift_part(
    low: &[i32],
    b: usize,
    plane: &[i32],
    a: usize,
    x: usize,
    width: usize,
    lines: &mut [i32],
    to: usize,
)
    requires { (0 < width) × (b + count lo (side x width) ≤ length low.now) × (a + width ≤ length plane.now) × (to + width ≤ length lines.old) }
    ensures { LineMade to width (short_unlifted (side x width) (highs_laid (side x width) (windowed a width (at plane.now))
        (windowed b (count lo (side x width)) (at low.now)))) (at lines.old) (at lines.new) }
{
    let c = b + sizes::low_count(x, width);
    let e = a + width;
    let f = to + width;
    short_back::unlift(&low[b..c], &plane[a..e], x, &mut lines[to..f]);
}

// Low row r of a level lifted back along its row into the line at place `to`: its low half is the low-low part's row.
pub fn fetch_low(
    plane: &[i32],
    work: &[i32],
    lines: &mut [i32],
    across: usize,
    sides: Sides,
    r: usize,
    to: usize,
)
    requires { Rows (length plane.now) across sides.width sides.height × (sides.width * sides.height ≤ length work.now)
        × (0 < sides.width) × (r < sides.height) × (to + sides.width ≤ length lines.old) × ((sides.y + r) % 2 ≡ 0) }
    ensures { LineMade to sides.width (short_unlifted (columns sides) (cut sides.width (band_rows across (columns sides) (rows sides) (at plane.now)
        (at work.now) r))) (at lines.old) (at lines.new) }
{
    let n = r / 2;
    let b = low_place(sides) + n * sizes::low_count(sides.x, sides.width);
    unlift_part(work, b, plane, n * across, sides.x, sides.width, lines, to);
}

// And high row r, which stands in the plane.
pub fn fetch_high(
    plane: &[i32],
    lines: &mut [i32],
    across: usize,
    sides: Sides,
    r: usize,
    to: usize,
)
    requires { Rows (length plane.now) across sides.width sides.height × (0 < sides.width) × (r < sides.height)
        × (to + sides.width ≤ length lines.old) × ((sides.y + r) % 2 ≡ 1) }
    ensures { (x₀ : ℕ → ℤ) → LineMade to sides.width (short_unlifted (columns sides) (cut sides.width (band_rows across (columns sides) (rows sides)
        (at plane.now) x₀ r))) (at lines.old) (at lines.new) }
{
    let a = (sizes::low_count(sides.y, sides.height) + r / 2) * across;
    unlift_whole(plane, a, sides.x, sides.width, lines, to);
}

// A row of either kind.
pub fn fetch(
    plane: &[i32],
    work: &[i32],
    lines: &mut [i32],
    across: usize,
    sides: Sides,
    r: usize,
    to: usize,
)
    requires { Rows (length plane.now) across sides.width sides.height × (sides.width * sides.height ≤ length work.now)
        × (0 < sides.width) × (r < sides.height) × (to + sides.width ≤ length lines.old) }
    ensures { LineMade to sides.width (short_unlifted (columns sides) (cut sides.width (band_rows across (columns sides) (rows sides) (at plane.now)
        (at work.now) r))) (at lines.old) (at lines.new) }
{
    if r % 2 == sides.y % 2 {
        fetch_low(plane, work, lines, across, sides, r, to);
        return;
    }
    fetch_high(plane, lines, across, sides, r, to);
}

// The line at place `from` to row r of the heights; and whether its numbers are heights, which is known where `sure` says so.
fn put_heights(
    lines: &[i32],
    from: usize,
    heights: &mut [u16],
    x: usize,
    width: usize,
    r: usize,
    sure: bool,
) -> bool
    requires { (from + width ≤ length lines.now) × (r * width + width ≤ length heights.old)
        × (sure ≡ true → (j : ℕ) → j < width → IsHeight (at lines.now (from + j))) }
    ensures { (x₀ : ℕ → ℤ) → RowPut five_three_filter result 0 r (side x width) (λ j. at lines.now (from + j)) (heights_at heights.old)
        (heights_at heights.new) x₀ x₀ }
{
    let e = from + width;
    let a = r * width;
    let f = a + width;
    let _ = areas::lines::interleave_line(&lines[from..e], x, &mut heights[a..f]);
    if sure {
        return true;
    }
    small::all_heights(&lines[from..e])
}

// Whether the numbers of a row lie in the range of a level.
fn all_in_range(row: &[i32], level: usize) -> bool
    requires { (0 < level) × (level ≤ five_three_filter.levels) }
    ensures { result ≡ every (length row.now) (λ j. value_fits five_three_filter level (at row.now j)) }
{
    let most = filters::range_of(0, level);
    if small::surely_within(row, most as u32) {
        return true;
    }
    areas::ranges::all_between(row, level_ranges::lowest(level, 0), most)
}

// The same to row r of the work area, and whether its numbers lie in the range of `level`.
fn put_numbers(
    lines: &[i32],
    from: usize,
    work: &mut [i32],
    x: usize,
    width: usize,
    r: usize,
    level: usize,
) -> bool
    requires { (from + width ≤ length lines.now) × (r * width + width ≤ length work.old) × (0 < level) × (level ≤ five_three_filter.levels) }
    ensures { (g₀ : ℕ → ℤ) → RowPut five_three_filter result level r (side x width) (λ j. at lines.now (from + j)) g₀ g₀
        (at work.old) (at work.new) }
{
    let e = from + width;
    let a = r * width;
    let f = a + width;
    let _ = areas::lines::interleave_line(&lines[from..e], x, &mut work[a..f]);
    all_in_range(&lines[from..e], level)
}

// The line at place `from` to row r of a level: of the map, level 0, to the heights, else to the work area.
pub fn put(
    lines: &[i32],
    from: usize,
    heights: &mut [u16],
    work: &mut [i32],
    x: usize,
    width: usize,
    r: usize,
    level: usize,
    sure: bool,
) -> bool
    requires { (from + width ≤ length lines.now) × (level ≡ 0 → r * width + width ≤ length heights.old) × (r * width + width ≤ length work.old)
        × (level ≤ five_three_filter.levels) × (sure ≡ true → (j : ℕ) → j < width → IsHeight (at lines.now (from + j))) }
    ensures { RowPut five_three_filter result level r (side x width) (λ j. at lines.now (from + j)) (heights_at heights.old)
        (heights_at heights.new) (at work.old) (at work.new) }
{
    if level == 0 {
        return put_heights(lines, from, heights, x, width, r, sure);
    }
    put_numbers(lines, from, work, x, width, r, level)
}
