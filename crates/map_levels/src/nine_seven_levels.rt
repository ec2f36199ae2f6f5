// The levels of a map by the 9/7. Forward a level is lifted where it stands, in the plane's corner. Back its rows stand in the work area, `height` rows of
// `width` numbers each in halves, `stride` apart: the rows of the next level are every second one of them, so its stride is twice as long, and they begin at
// the first low row. The plane's rows are `across` apart at every level. x and y are where the level starts on the grid. The module is private, as `rowwise`
// is.
ghost use Rattle.std.specs.Prelude.{◌≡◌, true, ℕ, ◌+◌, ◌-◌, ◌*◌, ◌<◌, ◌≤◌, pos, neg_ℤ, length};
ghost use Rattle.numbers.specs.Signal.{at, pick};
ghost use Rattle.lifting.specs.Grid.{side};
ghost use Rattle.nine_seven.specs.Memory.{unlifted_in_place as nine_seven_back};
ghost use Rattle.nine_seven.specs.NineSevenFilter.{nine_seven_filter};
ghost use Rattle.wavelet.specs.Limits.{max_width, range};
ghost use Rattle.wavelet.specs.Plane.{cells, flat};
ghost use Rattle.map_levels.specs.Rowwise.{interleaved_in_place};
ghost use Rattle.map_levels.specs.Passes.{Rows, KeptFrom, is_low, plane_row, rows_mapped, rows_fetched};
ghost use Rattle.filters.specs.Filters.{filter_of};
ghost use Rattle.map_levels.specs.ByFilter.{row_copied};
ghost use Rattle.map_levels.specs.LevelPasses.{corner_grid, plane_written, rows_even, rows_between};
ghost use Rattle.map_levels.specs.LevelPasses.{LevelRoom, Doubling, LevelMadeBy, LevelsBack};
ghost use Rattle.map_levels.specs.Sides.{columns, rows};

use crate::sides::Sides;
use crate::{level_ranges, levels, passes};
use nine_seven_sweep::columns;
use wavelet::sizes;

// The number of the 9/7.
const NINE_SEVEN: usize = 1;

// The plane's row for row r of a level: the low rows come first.
fn plane_row(y: usize, height: usize, r: usize) -> usize
    requires { r < height }
    ensures { (result ≡ plane_row (side y height) r) × (result < height) }
{
    if r % 2 == y % 2 {
        return r / 2;
    }
    sizes::low_count(y, height) + r / 2
}

// How many numbers of row r are made already: of a low one, whose low half is the low-low part, `from`.
fn made_of(y: usize, r: usize, from: usize) -> usize
    ensures { (h : ℕ) → result ≡ pick (is_low (side y h) r) from 0 }
{
    if r % 2 == y % 2 { from } else { 0 }
}

// All levels forward by the 9/7, in the plane's corner: this one, and then the same of its low-low part with the levels left, which goes through the
// work area into the order that a level takes.
pub fn forward_levels(
    plane: &mut [i32],
    work: &mut [i32],
    across: usize,
    sides: Sides,
    levels: usize,
)
    requires { Rows (length plane.old) across sides.width sides.height × Rows (length work.old) sides.width sides.width sides.height × (0 < levels) }
    ensures plane_after { at plane.new ≡
        flat across (plane_written nine_seven_filter levels (columns sides) (rows sides)
        (corner_grid (columns sides) (rows sides) (cells across (at plane.old)))
        (cells across (at plane.old))) }
    ensures kept_from { KeptFrom ((sides.height - 1) * sides.width + sides.width) (at work.old) (at work.new) }
{
    passes::lift_nine_seven(plane, across, sides);
    let low = sides.low();
    if !levels::has_next(levels, low) {
        return;
    }
    levels::save(plane, work, across, low.width, low.height);
    levels::spread(work, plane, across, low);
    forward_levels(plane, work, across, low, levels - 1);
}

// The low-low part of a level, its rows `stride` apart, from halves into its own order; and whether its numbers lie in the range of `level`, its own.
fn interleave_low(
    work: &mut [i32],
    stride: usize,
    x: usize,
    width: usize,
    height: usize,
    level: usize,
    filter: usize,
) -> bool
    requires { Rows (length work.old) stride width height × (width + width ≤ max_width + 1) × (level ≤ (filter_of filter).levels) }
    ensures value { result ≡ rows_between 0 height 0 width (neg_ℤ (pos (range (filter_of filter) level))) (pos (range (filter_of filter) level))
        (cells stride (at work.old)) }
    ensures work_after { at work.new ≡
        flat stride (rows_mapped (interleaved_in_place (side x width)) width height (cells stride (at work.old))) }
{
    passes::interleave_rows(
        work,
        stride,
        x,
        width,
        height,
        level_ranges::lowest(level, filter),
        filters::range_of(filter, level),
    )
}

// ---- a level back by the 9/7: the plane's rows fetched, all rows lifted back, then all columns

fn copy_row(
    plane: &[i32],
    work: &mut [i32],
    across: usize,
    stride: usize,
    from: usize,
    width: usize,
    y: usize,
    height: usize,
    r: usize,
)
    requires { Rows (length plane.now) across width height × Rows (length work.old) stride width height × (from ≤ width) × (r < height) }
    ensures { at work.new ≡
        row_copied from width (side y height) across stride (at plane.now) r (at work.old) }
{
    let made = made_of(y, r, from);
    let a = plane_row(y, height, r) * across;
    let b = r * stride;
    levels::copy_part(plane, a + made, work, b + made, width - made);
}

fn copy_rows(
    plane: &[i32],
    work: &mut [i32],
    across: usize,
    stride: usize,
    from: usize,
    width: usize,
    y: usize,
    height: usize,
)
    requires { Rows (length plane.now) across width height × Rows (length work.old) stride width height × (from ≤ width) }
    ensures { at work.new ≡
        flat stride (rows_fetched from width (side y height) (cells across (at plane.now)) (cells stride (at work.old))) }
{
    for r in 0..height {
        copy_row(plane, work, across, stride, from, width, y, height, r);
    }
}

fn unlift_rows(work: &mut [i32], stride: usize, x: usize, width: usize, height: usize)
    requires { Rows (length work.old) stride width height × (rows_even (side x width) height (cells stride (at work.old)) ≡ true) }
    ensures { at work.new ≡
        flat stride (rows_mapped (nine_seven_back (side x width)) width height (cells stride (at work.old))) }
{
    for r in 0..height {
        let a = r * stride;
        let e = a + width;
        nine_seven::line::unlift(&mut work[a..e], x);
    }
}

fn nine_seven_back(
    plane: &[i32],
    work: &mut [i32],
    across: usize,
    stride: usize,
    from: usize,
    sides: Sides,
) -> bool
    requires { LevelRoom (length plane.now) (length work.old) across stride from (columns sides) (rows sides) }
    ensures { LevelMadeBy nine_seven_filter result from stride (columns sides) (rows sides) (cells across (at plane.now))
        (at work.old) (at work.new) }
{
    if !levels::rows_even(plane, across, sides.x, sides.width, sides.height) {
        return false;
    }
    copy_rows(
        plane,
        work,
        across,
        stride,
        from,
        sides.width,
        sides.y,
        sides.height,
    );
    unlift_rows(work, stride, sides.x, sides.width, sides.height);
    columns::unlift_columns(work, stride, sides.width, sides.y, sides.height) == 0
}

// All levels back by the 9/7: first the low-low part with the levels left, whose numbers are tested while they are laid in their own order, then this
// level. False where one does not fit, or is odd and halved. The numbers of this level itself are for the caller to test.
pub fn back_levels(
    plane: &[i32],
    work: &mut [i32],
    across: usize,
    stride: usize,
    sides: Sides,
    levels: usize,
    level: usize,
) -> bool
    requires { Rows (length plane.now) across sides.width sides.height × Rows (length work.old) stride sides.width sides.height
        × Doubling levels stride sides.width × (level + levels ≤ nine_seven_filter.levels) }
    ensures { LevelsBack nine_seven_filter result level levels stride across (columns sides) (rows sides) (at plane.now)
        (at work.old) (at work.new) }
{
    let low = sides.low();
    if !levels::has_next(levels, low) {
        return nine_seven_back(plane, work, across, stride, 0, sides);
    }
    let a = sides.y % 2 * stride;
    let n = work.len();
    if !back_levels(
        plane,
        &mut work[a..n],
        across,
        2 * stride,
        low,
        levels - 1,
        level + 1,
    ) {
        return false;
    }
    if !interleave_low(
        &mut work[a..n],
        2 * stride,
        low.x,
        low.width,
        low.height,
        level + 1,
        NINE_SEVEN,
    ) {
        return false;
    }
    nine_seven_back(plane, work, across, stride, low.width, sides)
}
