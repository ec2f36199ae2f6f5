// The levels of a window, each lifted in place and its bands copied to the plane where they are in reach.
ghost use Rattle.std.specs.Prelude.{◌≡◌, ℕ, suc, ◌+◌, ◌^◌, ◌≤◌, ◌<◌, length};
ghost use Rattle.numbers.specs.Signal.{at};
ghost use Rattle.wavelet.specs.Limits.{max_width};
ghost use Rattle.wavelet.specs.Bands.{Grid};
ghost use Rattle.wavelet.specs.Plane.{cells, flat};
ghost use Rattle.map_levels.specs.Passes.{Rows};
ghost use Rattle.map_levels.specs.LevelPasses.{Doubling};
ghost use Rattle.strokes.specs.Local.{Opened, Placed, Lies, Agrees, changed_of, level_done, highs_mended, grid_mended};

use crate::direction::{Direction, Level};
use crate::{direction, patch, window};

// A level of the window lifted in place: all columns, then the rows that are used.
fn lift_level(work: &mut [i32], stride: usize, width: usize, rows: Direction)
    requires { Rows (length work.old) stride width rows.size × (width ≤ max_width) × (rows.start + rows.size ≤ 2 ^ 32) × (rows.last ≤ 2 ^ 32) }
    ensures { at work.new ≡ flat stride (level_done width rows (cells stride (at work.old))) }
{
    window::lift_columns(work, stride, width, rows.size);
    window::lift_rows(work, stride, width, rows);
}

// Its three high bands to the plane.
fn copy_highs(work: &[i32], plane: &mut [i32], l: Level)
    requires { Opened l (length work.now) (length plane.old) }
    ensures { (k u v u' v' : ℕ) (G X : Grid) → Lies u v (suc k) l.columns → Lies u' v' (suc k) l.rows → Agrees u v u' v' l.columns l.rows G X →
        at work.now ≡ flat l.stride (level_done l.columns.size l.rows X) →
        at plane.new ≡ flat l.across (highs_mended l.columns.length l.rows.length (changed_of l.columns) (changed_of l.rows) G
        (cells l.across (at plane.old))) }
{
    patch::copy_band(work, plane, l, 1, 0);
    patch::copy_band(work, plane, l, 0, 1);
    patch::copy_band(work, plane, l, 1, 1);
}

// One level: lifted, and its high bands copied. Its low-low part stays in the work area, for the next level.
fn mend_level(work: &mut [i32], plane: &mut [i32], l: Level)
    requires { Opened l (length work.old) (length plane.old) × (l.columns.length ≤ max_width) }
    ensures work_after { at work.new ≡ flat l.stride (level_done l.columns.size l.rows (cells l.stride (at work.old))) }
    ensures plane_after { (k u v u' v' : ℕ) (G : Grid) → Lies u v (suc k) l.columns → Lies u' v' (suc k) l.rows →
        Agrees u v u' v' l.columns l.rows G (cells l.stride (at work.old)) →
        at plane.new ≡ flat l.across (highs_mended l.columns.length l.rows.length (changed_of l.columns) (changed_of l.rows) G
        (cells l.across (at plane.old))) }
{
    lift_level(work, l.stride, l.columns.size, l.rows);
    copy_highs(work, plane, l);
}

// All levels.
pub fn mend_levels(
    work: &mut [i32],
    plane: &mut [i32],
    across: usize,
    columns: Direction,
    rows: Direction,
    levels: usize,
)
    requires { Placed levels columns × Placed levels rows × Doubling levels columns.size columns.size
        × Rows (length work.old) columns.size columns.size rows.size × Rows (length plane.old) across columns.length rows.length
        × (columns.length ≤ max_width) }
    ensures { (u v u' v' : ℕ) (G : Grid) → Lies u v levels columns → Lies u' v' levels rows →
        Agrees u v u' v' columns rows G (cells columns.size (at work.old)) →
        at plane.new ≡ flat across (grid_mended levels columns.length rows.length (changed_of columns) (changed_of rows) G
        (cells across (at plane.old))) }
{
    let mut l = Level {
        columns,
        rows,
        stride: columns.size,
        across,
    };
    for _level in 1..levels {
        mend_level(work, plane, l);
        l = direction::next(l);
    }
    mend_level(work, plane, l);
    patch::copy_band(work, plane, l, 0, 0);
}
