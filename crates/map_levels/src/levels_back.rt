// All levels of a map back by the 5/3, each in one sweep. A level has a work area of as many numbers as its grid: at the end of it stands its low-low part,
// made
// by the levels left, which have that end as their own work area; and the grid goes to the front of it, or, of level 1, to the heights. The module is private,
// as `rowwise` is.
ghost use Rattle.std.specs.Prelude.{◌≡◌, true, ◌+◌, ◌<◌, ◌≤◌, length};
ghost use Rattle.numbers.specs.Signal.{at};
ghost use Rattle.lifting.specs.FiveThree.{five_three_filter};
ghost use Rattle.wavelet.specs.Bands.{columns_have, level_has};
ghost use Rattle.wavelet.specs.Plane.{cells};
ghost use Rattle.areas.specs.Areas.{heights_at};
ghost use Rattle.map_levels.specs.LevelPasses.{region_in_range};
ghost use Rattle.map_levels.specs.SweepBack.{bands_in, SmallBands, LevelSweptBack, SweptBack};
ghost use Rattle.map_levels.specs.BackLines.{BackRoom};
ghost use Rattle.map_levels.specs.Sides.{columns, rows};

use crate::sides::Sides;
use crate::{back_rows, back_sweep, levels, sweep};
use wavelet::sizes;

// A level of one row: at an odd coordinate its numbers are halved.
fn one_back(
    plane: &[i32],
    heights: &mut [u16],
    work: &mut [i32],
    lines: &mut [i32],
    across: usize,
    sides: Sides,
    level: usize,
) -> bool
    requires { BackRoom level (length plane.now) (length heights.old) (length work.old) (length lines.old) across (columns sides) (rows sides)
        × (sides.height < 2) × SmallBands across (columns sides) (rows sides) (at plane.now) (at work.old) }
    ensures { LevelSweptBack five_three_filter result
        (columns_have five_three_filter (columns sides) (rows sides)
        (bands_in across (columns sides) (rows sides) (at plane.now) (at work.old)))
        level across (columns sides) (rows sides) (at plane.now) (heights_at heights.old) (heights_at heights.new)
        (at work.old) (at work.new) }
{
    back_rows::fetch(plane, work, lines, across, sides, 0, 0);
    let even = levels::unlift_single(lines, sides.width, sides.y);
    let fits = back_rows::put(
        lines,
        0,
        heights,
        work,
        sides.x,
        sides.width,
        0,
        level,
        false,
    );
    even & fits
}

// A level, whose low-low part stands at the end of its work area: whether all that is halved is even, and all that is made fits.
fn level_back(
    plane: &[i32],
    heights: &mut [u16],
    work: &mut [i32],
    lines: &mut [i32],
    across: usize,
    sides: Sides,
    level: usize,
) -> bool
    requires { BackRoom level (length plane.now) (length heights.old) (length work.old) (length lines.old) across (columns sides) (rows sides)
        × SmallBands across (columns sides) (rows sides) (at plane.now) (at work.old) }
    ensures { LevelSweptBack five_three_filter result
        (level_has five_three_filter (columns sides) (rows sides)
        (bands_in across (columns sides) (rows sides) (at plane.now) (at work.old)))
        level across (columns sides) (rows sides) (at plane.now) (heights_at heights.old) (heights_at heights.new)
        (at work.old) (at work.new) }
{
    if !levels::rows_even(plane, across, sides.x, sides.width, sides.height) {
        return false;
    }
    if sides.height < 2 {
        return one_back(plane, heights, work, lines, across, sides, level);
    }
    back_sweep::rows_back(plane, heights, work, lines, across, sides, level)
}

// All levels: first the low-low part with the levels left, or as it stands in the plane, and then this level. `level` is the one that this grid is the low-low
// part of, 0 for the map.
pub fn sweep_back(
    plane: &[i32],
    heights: &mut [u16],
    work: &mut [i32],
    lines: &mut [i32],
    across: usize,
    sides: Sides,
    levels: usize,
    level: usize,
) -> bool
    requires { BackRoom level (length plane.now) (length heights.old) (length work.old) (length lines.old) across (columns sides) (rows sides)
        × (0 < levels) × (level + levels ≤ five_three_filter.levels)
        × (region_in_range five_three_filter (level + 1) levels (columns sides) (rows sides) (cells across (at plane.now)) ≡ true) }
    ensures { SweptBack five_three_filter result level levels across (columns sides) (rows sides) (at plane.now)
        (heights_at heights.old) (heights_at heights.new) (at work.old) (at work.new) }
{
    let low = sides.low();
    let a = back_rows::low_place(sides);
    let n = sides.width * sides.height;
    if !levels::has_next(levels, low) {
        sweep::save_low(plane, &mut work[a..n], across, sides);
        return level_back(plane, heights, work, lines, across, sides, level);
    }
    if !sweep_back(
        plane,
        heights,
        &mut work[a..n],
        lines,
        across,
        low,
        levels - 1,
        level + 1,
    ) {
        return false;
    }
    level_back(plane, heights, work, lines, across, sides, level)
}
