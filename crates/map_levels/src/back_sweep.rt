// A level of more than one row back by the 5/3 in one sweep over its rows: a low row and the high row after it are lifted back along their rows into lines,
// their columns are lifted back, and the rows that are done then are put. The module is private, as `rowwise` is.
ghost use Rattle.std.specs.Prelude.{◌≡◌, Bool, true, ℕ, ◌+◌, ◌-◌, ◌*◌, ◌%◌, ◌<◌, ◌≤◌, ℤ, length};
ghost use Rattle.numbers.specs.Signal.{at, both};
ghost use Rattle.lifting.specs.Grid.{side};
ghost use Rattle.lifting.specs.FiveThree.{five_three_filter};
ghost use Rattle.areas.specs.Areas.{heights_at};
ghost use Rattle.map_levels.specs.SweepBack.{SmallBands, LevelSweptBack};
ghost use Rattle.map_levels.specs.BackLines.{line_long, SweepRoomBack, RowsDone};
ghost use Rattle.map_levels.specs.Sides.{columns, rows};

use crate::sides::Sides;
use crate::{back_lines, back_rows, passes};

// The first rows: the first low row is done, and put where it comes first; the high row beside it is lifted back along its row.
fn first_rows(
    plane: &[i32],
    heights: &mut [u16],
    work: &mut [i32],
    lines: &mut [i32],
    across: usize,
    sides: Sides,
    level: usize,
) -> bool
    requires { SweepRoomBack level (length plane.now) (length heights.old) (length work.old) (length lines.old) across (columns sides) (rows sides)
        × SmallBands across (columns sides) (rows sides) (at plane.now) (at work.old) }
    ensures { RowsDone result level across (columns sides) (rows sides) (at plane.now) (heights_at heights.old)
        (at work.old) (1 - sides.y % 2) (heights_at heights.new) (at work.new) (at lines.new) }
{
    let b = sides.y % 2;
    back_rows::fetch_low(plane, work, lines, across, sides, b, back_lines::LOW);
    back_rows::fetch_high(plane, lines, across, sides, 1 - b, back_lines::HIGH);
    back_rows::fetch_high(
        plane,
        lines,
        across,
        sides,
        passes::row_after(sides.height, b),
        back_lines::NEXT,
    );
    back_lines::unupdate_columns(lines, sides.width);
    if b == 1 {
        return true;
    }
    back_rows::put(
        lines,
        back_lines::EVEN,
        heights,
        work,
        sides.x,
        sides.width,
        0,
        level,
        false,
    )
}

// High row r and low row r + 1.
fn pair_back(
    plane: &[i32],
    heights: &mut [u16],
    work: &mut [i32],
    lines: &mut [i32],
    across: usize,
    sides: Sides,
    level: usize,
    r: usize,
) -> bool
    requires { SweepRoomBack level (length plane.now) (length heights.old) (length work.old) (length lines.old) across (columns sides) (rows sides)
        × (r + 1 < sides.height) × ((sides.y + r) % 2 ≡ 1) }
    ensures { (ok₀ : Bool) (g₀ x₀ : ℕ → ℤ) → SmallBands across (columns sides) (rows sides) (at plane.now) x₀ →
        RowsDone ok₀ level across (columns sides) (rows sides) (at plane.now) g₀ x₀ r (heights_at heights.old)
        (at work.old) (at lines.old) →
        RowsDone (both ok₀ result) level across (columns sides) (rows sides) (at plane.now) g₀ x₀ (r + 2) (heights_at heights.new)
        (at work.new) (at lines.new) }
{
    let l = r + 1;
    back_rows::fetch_low(plane, work, lines, across, sides, l, back_lines::LOW);
    back_rows::fetch_high(
        plane,
        lines,
        across,
        sides,
        passes::row_after(sides.height, l),
        back_lines::NEXT,
    );
    let sure = back_lines::unlift_columns(lines, sides.width);
    let ok = back_rows::put(
        lines,
        back_lines::ODD,
        heights,
        work,
        sides.x,
        sides.width,
        r,
        level,
        sure,
    );
    back_rows::put(
        lines,
        back_lines::EVEN,
        heights,
        work,
        sides.x,
        sides.width,
        l,
        level,
        sure,
    ) & ok
}

// The last high row, where no low row follows it.
fn last_row(
    heights: &mut [u16],
    work: &mut [i32],
    lines: &mut [i32],
    sides: Sides,
    level: usize,
    r: usize,
) -> bool
    requires { (level ≡ 0 → sides.width * sides.height ≤ length heights.old) × (sides.width * sides.height ≤ length work.old)
        × (5 * line_long ≤ length lines.old) × (sides.width ≤ line_long) × (1 < sides.height)
        × (sides.height ≤ r + 1) × (level ≤ five_three_filter.levels) }
    ensures { (ok₀ : Bool) (A : ℕ) (z g₀ x₀ : ℕ → ℤ) → (r < sides.height → (sides.y + r) % 2 ≡ 1) →
        SmallBands A (columns sides) (rows sides) z x₀ →
        RowsDone ok₀ level A (columns sides) (rows sides) z g₀ x₀ r (heights_at heights.old) (at work.old)
        (at lines.old) → (r ≤ sides.height) →
        RowsDone (both ok₀ result) level A (columns sides) (rows sides) z g₀ x₀ sides.height (heights_at heights.new) (at work.new)
        (at lines.new) }
{
    if sides.height <= r {
        return true;
    }
    back_lines::unpredict_columns(lines, sides.width);
    back_rows::put(
        lines,
        back_lines::ODD,
        heights,
        work,
        sides.x,
        sides.width,
        r,
        level,
        false,
    )
}

// A level of more than one row.
pub fn rows_back(
    plane: &[i32],
    heights: &mut [u16],
    work: &mut [i32],
    lines: &mut [i32],
    across: usize,
    sides: Sides,
    level: usize,
) -> bool
    requires { SweepRoomBack level (length plane.now) (length heights.old) (length work.old) (length lines.old) across (columns sides) (rows sides)
        × SmallBands across (columns sides) (rows sides) (at plane.now) (at work.old) }
    ensures { LevelSweptBack five_three_filter result true level across (columns sides) (rows sides) (at plane.now)
        (heights_at heights.old) (heights_at heights.new) (at work.old) (at work.new) }
{
    let mut ok = first_rows(plane, heights, work, lines, across, sides, level);
    let start = 1 - sides.y % 2;
    let pairs = (sides.height - start) / 2;
    for n in 0..pairs {
        let r = start + 2 * n;
        ok &= pair_back(plane, heights, work, lines, across, sides, level, r);
    }
    let end = start + 2 * pairs;
    ok & last_row(heights, work, lines, sides, level, end)
}
