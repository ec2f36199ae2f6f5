// A level forward by the 5/3 in one sweep over its rows, from the grid to the plane: low row by low row the columns of three rows are lifted into two lines,
// and each line goes to its row of the plane and is lifted there. The first level is read from the heights as they stand, every other from the front of the
// work area: there the low-low part of a level is left, over rows that are read no more. The module is private, as `rowwise` is.
ghost use Rattle.std.specs.Prelude.{◌≡◌, true, ℕ, ◌+◌, ◌-◌, ◌*◌, ◌%◌, ◌<◌, ◌≤◌, ltb, leb, ℤ, length};
ghost use Rattle.numbers.specs.Signal.{at, pick, spliced};
ghost use Rattle.lifting.specs.Line.{lo, hi};
ghost use Rattle.lifting.specs.Grid.{side, count};
ghost use Rattle.lifting.specs.FiveThree.{five_three_filter};
ghost use Rattle.areas.specs.Areas.{heights_at};
ghost use Rattle.wavelet.specs.Plane.{cells, flat};
ghost use Rattle.map_levels.specs.Passes.{Rows, KeptFrom, grid_halved};
ghost use Rattle.map_levels.specs.LevelPasses.{plane_written};
ghost use Rattle.map_levels.specs.Sweep.{line_half, line_at, line_lifted, source_grid, other_low, first_other, ColumnsMade, SweepRoom};
ghost use Rattle.map_levels.specs.Sweep.{LevelArea, SmallLine, Small, Growing, SetsDone, LowSaved, LevelSwept};
ghost use Rattle.map_levels.specs.Sides.{columns, rows};

use crate::sides::Sides;
use crate::{heights as loading, levels, lines, passes, short};
use wavelet::sizes;

// The low row on the other side of the high row after low row a of `height` rows: a itself where there is none.
fn other_low(height: usize, a: usize) -> usize
    requires { a < height }
    ensures { (result ≡ other_low height a) × (result < height) }
{
    if height - a <= 2 {
        return a;
    }
    a + 2
}

// And that of the first high row, which comes before the first low row where the level starts at an odd coordinate.
fn first_other(y: usize, height: usize) -> usize
    requires { 1 < height }
    ensures { (result ≡ first_other (side y height)) × (result < height) }
{
    if y % 2 == 0 {
        return other_low(height, 0);
    }
    1
}

// The columns of low row a: by the high rows before and after it, of which the one after is made.
fn set_columns(
    heights: &[u16],
    work: &[i32],
    first: bool,
    width: usize,
    height: usize,
    a: usize,
    lines: &mut [i32],
)
    requires { Rows (pick first (length heights.now) (length work.now)) width width height × (a < height) × (width ≤ 2 * line_half)
        × (4 * line_half ≤ length lines.old) }
    ensures { ColumnsMade (leb height (a + 1)) width (source_grid first width (heights_at heights.now) (at work.now) a)
        (source_grid first width (heights_at heights.now) (at work.now) (a + 1))
        (source_grid first width (heights_at heights.now) (at work.now) (other_low height a))
        (at lines.old) (at lines.new) }
{
    if height - a <= 1 {
        lines::end_columns(heights, work, first, a, width, lines);
        return;
    }
    lines::lift_columns(
        heights,
        work,
        first,
        a,
        a + 1,
        other_low(height, a),
        width,
        lines,
    );
}

// The high line to high row n of the plane, where there is one.
fn put_high(lines: &[i32], plane: &mut [i32], across: usize, sides: Sides, n: usize)
    requires { (4 * line_half ≤ length lines.now) × (sides.width ≤ 2 * line_half) × Rows (length plane.old) across sides.width sides.height }
    ensures { SmallLine sides.width (line_at 0 (at lines.now)) → at plane.new ≡
        pick (ltb n (count hi (rows sides)))
        (spliced ((count lo (rows sides) + n) * across) sides.width (line_lifted (columns sides) (line_at 0 (at lines.now))) (at plane.old))
        (at plane.old) }
{
    let low = sizes::low_count(sides.y, sides.height);
    if sides.height - low <= n {
        return;
    }
    let r = low + n;
    lines::lay_line(lines, 0, plane, across, r, sides.x, sides.width);
    short::lift_row(plane, across, sides.x, sides.width, r);
}

// Low row n: its columns, its row of the plane, its low-low numbers, and the high row after it.
fn lift_set(
    heights: &[u16],
    plane: &mut [i32],
    work: &mut [i32],
    lines: &mut [i32],
    first: bool,
    across: usize,
    sides: Sides,
    n: usize,
)
    requires { SweepRoom first (length heights.now) (length plane.old) (length work.old) (length lines.old) across (columns sides) (rows sides)
        × (n < count lo (rows sides)) }
    ensures { (z₀ x₀ : ℕ → ℤ) →
        SetsDone five_three_filter first across (columns sides) (rows sides) (heights_at heights.now) z₀ x₀ n
        (at plane.old) (at work.old) (at lines.old) →
        SetsDone five_three_filter first across (columns sides) (rows sides) (heights_at heights.now) z₀ x₀ (n + 1)
        (at plane.new) (at work.new) (at lines.new) }
{
    let b = sides.y % 2;
    set_columns(
        heights,
        work,
        first,
        sides.width,
        sides.height,
        2 * n + b,
        lines,
    );
    lines::lay_line(
        lines,
        2 * lines::HALF,
        plane,
        across,
        n,
        sides.x,
        sides.width,
    );
    short::lift_row(plane, across, sides.x, sides.width, n);
    let w = sizes::low_count(sides.x, sides.width);
    levels::copy_part(plane, n * across, work, n * w, w);
    put_high(lines, plane, across, sides, n + b);
}

// Before them: the first high row, put at once where it comes first.
fn first_high(
    heights: &[u16],
    plane: &mut [i32],
    work: &[i32],
    lines: &mut [i32],
    first: bool,
    across: usize,
    sides: Sides,
)
    requires { SweepRoom first (length heights.now) (length plane.old) (length work.now) (length lines.old) across (columns sides) (rows sides)
        × Small first (columns sides) (rows sides) (heights_at heights.now) (at work.now) }
    ensures { SetsDone five_three_filter first across (columns sides) (rows sides) (heights_at heights.now) (at plane.old)
        (at work.now) 0 (at plane.new) (at work.now) (at lines.new) }
{
    let b = sides.y % 2;
    lines::lift_columns(
        heights,
        work,
        first,
        b,
        1 - b,
        first_other(sides.y, sides.height),
        sides.width,
        lines,
    );
    if b == 0 {
        return;
    }
    put_high(lines, plane, across, sides, 0);
}

// A level of more than one row.
fn lift_sets(
    heights: &[u16],
    plane: &mut [i32],
    work: &mut [i32],
    first: bool,
    across: usize,
    sides: Sides,
)
    requires { LevelArea first (length heights.now) (length plane.old) (length work.old) across (columns sides) (rows sides) × (1 < sides.height)
        × Small first (columns sides) (rows sides) (heights_at heights.now) (at work.old) }
    ensures { LevelSwept five_three_filter first across (columns sides) (rows sides) (heights_at heights.now) (at plane.old)
        (at work.old) (at plane.new) (at work.new) }
{
    let mut lines = [0; 4 * lines::HALF];
    let low = sizes::low_count(sides.y, sides.height);
    first_high(heights, plane, work, &mut lines, first, across, sides);
    for n in 0..low {
        lift_set(heights, plane, work, &mut lines, first, across, sides, n);
    }
}

// A level of one row: it is laid in the plane in halves.
fn lay_one(
    heights: &[u16],
    plane: &mut [i32],
    work: &[i32],
    first: bool,
    across: usize,
    sides: Sides,
)
    requires { LevelArea first (length heights.now) (length plane.old) (length work.now) across (columns sides) (rows sides)
        × (first ≡ true → across ≡ sides.width) }
    ensures { at plane.new ≡
        flat across (grid_halved (columns sides) (rows sides) (source_grid first sides.width (heights_at heights.now) (at work.now))
        (cells across (at plane.old))) }
{
    if first {
        loading::load_rows(heights, plane, sides);
        return;
    }
    levels::spread(work, plane, across, sides);
}

// The low-low part of a level from the plane to the work area, where it is not empty.
pub fn save_low(plane: &[i32], work: &mut [i32], across: usize, sides: Sides)
    requires { Rows (length plane.now) across sides.width sides.height × (count lo (columns sides) * count lo (rows sides) ≤ length work.old) }
    ensures { LowSaved across (columns sides) (rows sides) (at plane.now) (at work.old) (at work.new) }
{
    let low = sides.low();
    if !levels::has_next(2, low) {
        return;
    }
    levels::save(plane, work, across, low.width, low.height);
}

fn lift_one(
    heights: &[u16],
    plane: &mut [i32],
    work: &mut [i32],
    first: bool,
    across: usize,
    sides: Sides,
)
    requires { LevelArea first (length heights.now) (length plane.old) (length work.old) across (columns sides) (rows sides)
        × (first ≡ true → across ≡ sides.width) × (sides.height < 2) }
    ensures { LevelSwept five_three_filter first across (columns sides) (rows sides) (heights_at heights.now) (at plane.old)
        (at work.old) (at plane.new) (at work.new) }
{
    lay_one(heights, plane, work, first, across, sides);
    passes::lift_one(plane, across, sides);
    save_low(plane, work, across, sides);
}

// A level, from the heights or from the work area.
fn lift_level(
    heights: &[u16],
    plane: &mut [i32],
    work: &mut [i32],
    first: bool,
    across: usize,
    sides: Sides,
)
    requires { LevelArea first (length heights.now) (length plane.old) (length work.old) across (columns sides) (rows sides)
        × (first ≡ true → across ≡ sides.width) × Small first (columns sides) (rows sides) (heights_at heights.now) (at work.old) }
    ensures { LevelSwept five_three_filter first across (columns sides) (rows sides) (heights_at heights.now) (at plane.old)
        (at work.old) (at plane.new) (at work.new) }
{
    if sides.height < 2 {
        lift_one(heights, plane, work, first, across, sides);
        return;
    }
    lift_sets(heights, plane, work, first, across, sides);
}

// All levels: this one, and then the same of its low-low part, which it has left in the work area, with the levels left.
pub fn sweep_levels(
    heights: &[u16],
    plane: &mut [i32],
    work: &mut [i32],
    first: bool,
    across: usize,
    sides: Sides,
    levels: usize,
)
    requires { LevelArea first (length heights.now) (length plane.old) (length work.old) across (columns sides) (rows sides)
        × (first ≡ true → across ≡ sides.width) × (0 < levels)
        × Growing levels (columns sides) (rows sides) (source_grid first sides.width (heights_at heights.now) (at work.old)) }
    ensures plane_after { at plane.new ≡
        flat across (plane_written five_three_filter levels (columns sides) (rows sides)
        (source_grid first sides.width (heights_at heights.now) (at work.old)) (cells across (at plane.old))) }
    ensures kept_from { KeptFrom ((sides.height - 1) * sides.width + sides.width) (at work.old) (at work.new) }
{
    lift_level(heights, plane, work, first, across, sides);
    let low = sides.low();
    if !levels::has_next(levels, low) {
        return;
    }
    sweep_levels(heights, plane, work, false, across, low, levels - 1);
}
