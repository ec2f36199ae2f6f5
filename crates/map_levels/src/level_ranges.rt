// The ranges of the levels, and question 7 of a plane: each coefficient in its level's range. The module is private, as `rowwise` is.
ghost use Rattle.std.specs.Prelude.{◌≡◌, true, ℕ, ◌+◌, ◌-◌, ◌*◌, ◌<◌, ◌≤◌, pos, neg_ℤ, nat_abs, length};
ghost use Rattle.numbers.specs.Signal.{at};
ghost use Rattle.wavelet.specs.Limits.{range};
ghost use Rattle.wavelet.specs.Plane.{cells};
ghost use Rattle.wavelet.specs.Questions.{Sized};
ghost use Rattle.map_levels.specs.Passes.{Rows};
ghost use Rattle.filters.specs.Filters.{filter_of};
ghost use Rattle.map_levels.specs.LevelPasses.{rows_between};
ghost use Rattle.map_levels.specs.LevelPasses.{region_in_range};
ghost use Rattle.map_levels.specs.Sides.{columns, rows};

use crate::sides::Sides;
use crate::{levels, small};
use wavelet::sizes;

// The least number of a level's range.
pub fn lowest(level: usize, filter: usize) -> i32
    requires { level ≤ (filter_of filter).levels }
    ensures { result ≡ neg_ℤ (pos (range (filter_of filter) level)) }
{
    0 - filters::range_of(filter, level)
}

// Whether the numbers of some rows lie from `low` to `high`: rows `first` up to `last`, columns `from` up to `to`.
fn rows_between(
    area: &[i32],
    stride: usize,
    first: usize,
    last: usize,
    from: usize,
    to: usize,
    low: i32,
    high: i32,
) -> bool
    requires { Rows (length area.now) stride to last × (first ≤ last) × (from ≤ to) }
    ensures { result ≡ rows_between first last from to low high (cells stride (at area.now)) }
{
    for r in first..last {
        let a = r * stride + from;
        let e = r * stride + to;
        if !areas::ranges::all_between(&area[a..e], low, high) {
            return false;
        }
    }
    true
}

// Whether the numbers of some rows lie in a level's range.
fn rows_in_range(
    plane: &[i32],
    across: usize,
    first: usize,
    last: usize,
    from: usize,
    to: usize,
    level: usize,
    filter: usize,
) -> bool
    requires { Rows (length plane.now) across to last × (first ≤ last) × (from ≤ to) × (level ≤ (filter_of filter).levels) }
    ensures { result ≡ rows_between first last from to (neg_ℤ (pos (range (filter_of filter) level))) (pos (range (filter_of filter) level))
        (cells across (at plane.now)) }
{
    rows_between(
        plane,
        across,
        first,
        last,
        from,
        to,
        lowest(level, filter),
        filters::range_of(filter, level),
    )
}

// Whether each coefficient of the plane lies in its level's range, `level` being that of this region's own bands.
fn in_range(
    plane: &[i32],
    across: usize,
    sides: Sides,
    levels: usize,
    level: usize,
    filter: usize,
) -> bool
    requires { Rows (length plane.now) across sides.width sides.height × (0 < levels) × (0 < level)
        × (level + levels ≤ (filter_of filter).levels + 1) }
    ensures { result ≡ region_in_range (filter_of filter) level levels (columns sides) (rows sides) (cells across (at plane.now)) }
{
    let low = sides.low();
    if !levels::has_next(levels, low) {
        return rows_in_range(
            plane,
            across,
            0,
            sides.height,
            0,
            sides.width,
            level,
            filter,
        );
    }
    if !in_range(plane, across, low, levels - 1, level + 1, filter) {
        return false;
    }
    if !rows_in_range(
        plane,
        across,
        0,
        low.height,
        low.width,
        sides.width,
        level,
        filter,
    ) {
        return false;
    }
    rows_in_range(
        plane,
        across,
        low.height,
        sides.height,
        0,
        sides.width,
        level,
        filter,
    )
}

// Whether the first n numbers of a plane surely lie in the range of level 1.
fn surely_least(plane: &[i32], n: usize, filter: usize) -> bool
    requires { (n ≤ length plane.now) × (1 ≤ (filter_of filter).levels) }
    ensures { result ≡ true → (i : ℕ) → i < n → nat_abs (at plane.now i) ≤ range (filter_of filter) 1 }
{
    small::surely_within(&plane[0..n], filters::range_of(filter, 1) as u32)
}

// Question 7 of a map's whole plane. The least range of all, that of level 1, is asked first, of all coefficients one after the other: a plane
// that surely keeps it keeps every level's range, and planes of most maps do. Only where one may not are the levels asked, each by its own range.
pub fn plane_in_range(plane: &[i32], sides: Sides, levels: usize, filter: usize) -> bool
    requires { Sized sides.width sides.height levels × (sides.width * sides.height ≤ length plane.now) × (levels ≤ (filter_of filter).levels) }
    ensures { result ≡ region_in_range (filter_of filter) 1 levels (columns sides) (rows sides) (cells sides.width (at plane.now)) }
{
    let n = sides.width * sides.height;
    if surely_least(plane, n, filter) {
        return true;
    }
    in_range(plane, sides.width, sides, levels, 1, filter)
}
