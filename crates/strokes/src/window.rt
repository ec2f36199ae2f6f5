// The window in the work area: loaded from the heights, its columns lifted, its rows lifted. Its rows stand in their own order, `stride` apart.
ghost use Rattle.std.specs.Prelude.{◌≡◌, ℕ, ◌+◌, ◌-◌, ◌*◌, ◌/◌, ◌^◌, ◌≤◌, ◌<◌, length};
ghost use Rattle.numbers.specs.Signal.{at, pick};
ghost use Rattle.areas.specs.Areas.{heights_at};
ghost use Rattle.lifting.specs.Grid.{side};
ghost use Rattle.lifting.specs.GridHalves.{forward_into};
ghost use Rattle.wavelet.specs.Plane.{cells, flat};
ghost use Rattle.map_levels.specs.Passes.{Rows};
ghost use Rattle.wavelet.specs.Limits.{max_width};
ghost use Rattle.strokes.specs.Local.{row_after, row_before, last_done, turn_done, columns_done, row_done, rows_done};
ghost use Rattle.strokes.specs.Local.{patch_copied, unread_before, unread_past, read_of};

use crate::direction::Direction;
use crate::patch::Patch;
use crate::{direction, patch};
use lifting::step::{Predict, Update};
use lifting::{line, rows};
use wavelet::limits;

// The row after the high row 2n + 1, mirrored at the end.
fn row_after(height: usize, n: usize) -> usize
    requires { (2 * n < height) × (n < 2 ^ 62) }
    ensures { (result ≡ row_after height n) × (result < height) }
{
    if 2 * n + 2 < height {
        return 2 * n + 2;
    }
    2 * n
}

// The high row before the low row 2n, mirrored at the beginning.
fn row_before(n: usize) -> usize
    requires { n ≤ 2 ^ 62 }
    ensures { (result ≡ row_before n) × (result ≤ 2 * n + 1) }
{
    if n == 0 {
        return 1;
    }
    2 * n - 1
}

// The last low row, 2n, where no high row follows it.
fn lift_last(area: &mut [i32], stride: usize, width: usize, height: usize, n: usize)
    requires { (1 ≤ n) × (n ≤ 2 ^ 62) }
    ensures { at area.new ≡ last_done (length area.old) stride width height n (at area.old) }
{
    if 2 * n + 1 == height {
        let _ = rows::change_row::<Update>(area, stride, width, 2 * n, 2 * n - 1, 2 * n - 1);
    }
}

// Low row 2n and the high row after it, lifted along the columns, and the low row after that if it is the last. It is called more than once, so that it stays
// a function by itself: inlined in the loop, it would lose its vector code.
fn lift_turn(area: &mut [i32], stride: usize, width: usize, height: usize, n: usize)
    requires { (2 * n + 1 < height) × (n < 2 ^ 62) }
    ensures { at area.new ≡ turn_done (length area.old) stride width height n (at area.old) }
{
    let high = 2 * n + 1;
    let _ = rows::change_row::<Predict>(area, stride, width, high, 2 * n, row_after(height, n));
    let _ = rows::change_row::<Update>(area, stride, width, 2 * n, row_before(n), high);
    lift_last(area, stride, width, height, n + 1);
}

// All columns lifted, a low row and the high row after it a turn.
pub fn lift_columns(area: &mut [i32], stride: usize, width: usize, height: usize)
    requires { Rows (length area.old) stride width height }
    ensures { at area.new ≡ flat stride (columns_done width height (cells stride (at area.old))) }
{
    if height < 2 {
        return;
    }
    let end = height / 2;
    lift_turn(area, stride, width, height, 0);
    for n in 1..end {
        lift_turn(area, stride, width, height, n);
    }
}

// A row to its low values and its high ones, through another line, where it is used.
fn lift_row(row: &mut [i32], other: &mut [i32], used: bool)
    requires { length row.old ≤ length other.old }
    ensures { at row.new ≡ pick used (row_done (length row.old) (at row.old)) (at row.old) }
{
    if !used {
        return;
    }
    let n = row.len();
    let _ = areas::copies::copy(row, other);
    let _ = line::forward(&other[0..n], 0, row);
}

// Then the rows, but not the high ones out of reach: nobody reads them.
pub fn lift_rows(area: &mut [i32], stride: usize, width: usize, rows: Direction)
    requires { Rows (length area.old) stride width rows.size × (width ≤ max_width) × (rows.start + rows.size ≤ 2 ^ 32) × (rows.last ≤ 2 ^ 32) }
    ensures { at area.new ≡ flat stride (rows_done width rows (cells stride (at area.old))) }
{
    let mut other = [0; limits::MAX_WIDTH];
    for r in 0..rows.size {
        let a = r * stride;
        lift_row(
            &mut area[a..a + width],
            &mut other,
            direction::is_used(rows, r),
        );
    }
}

// The window of the heights, whose rows are `across` apart, to the front of the work area, but for the places that are not read.
pub fn load(heights: &[u16], across: usize, columns: Direction, rows: Direction, work: &mut [i32])
    requires { Rows (length heights.now) across across rows.length × Rows (length work.old) columns.size columns.size rows.size
        × (columns.start + columns.size ≤ across) × (rows.start + rows.size ≤ rows.length) × (across < 2 ^ 32) × (rows.length < 2 ^ 32)
        × (unread_before columns + unread_past columns ≤ columns.size) × (unread_before rows + unread_past rows ≤ rows.size) }
    ensures { at work.new ≡
        flat columns.size (patch_copied (read_of columns rows)
        (λ i j. heights_at heights.now ((rows.start + unread_before rows) * across + (columns.start + unread_before columns) + i * across + j))
        (cells columns.size (at work.old))) }
{
    let left = direction::before(columns);
    let top = direction::before(rows);
    let p = Patch {
        row: top,
        column: left,
        rows: rows.size - top - direction::past(rows),
        columns: columns.size - left - direction::past(columns),
    };
    let a = (rows.start + top) * across + (columns.start + left);
    patch::copy_patch(heights, a, across, work, columns.size, p);
}
