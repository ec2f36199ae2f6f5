// Five lines, in each a row in halves, and the columns of a pair of rows lifted back in them. The module is private, as `rowwise` is.
ghost use Rattle.std.specs.Prelude.{◌≡◌, true, ℕ, ◌+◌, ◌*◌, ◌<◌, ◌≤◌, length};
ghost use Rattle.std.specs.Int.{w32};
ghost use Rattle.std.proofs.Common.{of_z};
ghost use Rattle.numbers.specs.Signal.{at, stored};
ghost use Rattle.map_levels.specs.SweepBack.{short_unpredicted};
ghost use Rattle.map_levels.specs.BackLines.{line_long, high_line, even_line, odd_line, even_of, odd_of, pair_stored, IsHeight};
ghost use Rattle.map_levels.specs.BackLines.{PairBack, EvenBack, OddBack};

use crate::{lines, short};
use wavelet::limits;

// The lines stand in one array at fixed distances: the compiler then needs no test whether they overlap. A low row and the high row after it, each lifted back
// along its row; the high row before them; the low row that is done, and the high row that is done.
pub const LINE: usize = 2 * lines::HALF;

pub const LOW: usize = 0;

pub const NEXT: usize = LINE;

pub const HIGH: usize = 2 * LINE;

pub const EVEN: usize = 3 * LINE;

pub const ODD: usize = 4 * LINE;

// Column k of a pair of rows: the low row without its update by the high rows on both sides, and the high row before it without its prediction by that one and
// the low row before. The bits of both numbers are in those that it answers.
fn unlift_at(lines: &mut [i32], k: usize) -> i32
    requires { (k < line_long) × (5 * line_long ≤ length lines.old) }
    ensures lines_after { at lines.new ≡ pair_stored k (at lines.old) }
    ensures k_bound { (of_z w32 (even_of (at lines.old) k) ≤ of_z w32 result) × (of_z w32 (odd_of (at lines.old) k) ≤ of_z w32 result) }
{
    let p = lines[HIGH + k];
    let d = lines[NEXT + k];
    let e = short::unupdate(lines[k], p, d);
    let o = short::unpredict(p, lines[EVEN + k], e);
    lines[ODD + k] = o;
    lines[EVEN + k] = e;
    lines[HIGH + k] = d;
    e | o
}

// All columns. Where this says yes, every number that was done is a height: the or of numbers is as large as each.
pub fn unlift_columns(lines: &mut [i32], width: usize) -> bool
    requires { (width ≤ line_long) × (5 * line_long ≤ length lines.old) }
    ensures pair_back { PairBack width (at lines.old) (at lines.new) }
    ensures is_height { result ≡ true → (j : ℕ) → j < width → IsHeight (odd_of (at lines.old) j) × IsHeight (even_of (at lines.old) j) }
{
    let mut all = 0;
    for k in 0..width {
        all |= unlift_at(lines, k);
    }
    (0 <= all) & (all <= limits::MAX_SAMPLE)
}

// The low row alone: the first one.
fn unupdate_at(lines: &mut [i32], k: usize)
    requires { (k < line_long) × (5 * line_long ≤ length lines.old) }
    ensures { at lines.new ≡ stored (even_line + k) (even_of (at lines.old) k) (at lines.old) }
{
    lines[EVEN + k] = short::unupdate(lines[k], lines[HIGH + k], lines[NEXT + k]);
}

pub fn unupdate_columns(lines: &mut [i32], width: usize)
    requires { (width ≤ line_long) × (5 * line_long ≤ length lines.old) }
    ensures { EvenBack width (at lines.old) (at lines.new) }
{
    for k in 0..width {
        unupdate_at(lines, k);
    }
}

// The high row alone: the last one, where no low row follows it.
fn unpredict_at(lines: &mut [i32], k: usize)
    requires { (k < line_long) × (5 * line_long ≤ length lines.old) }
    ensures { at lines.new ≡ stored (odd_line + k) (short_unpredicted (at lines.old (high_line + k))
        (at lines.old (even_line + k)) (at lines.old (even_line + k))) (at lines.old) }
{
    lines[ODD + k] = short::unpredict(lines[HIGH + k], lines[EVEN + k], lines[EVEN + k]);
}

pub fn unpredict_columns(lines: &mut [i32], width: usize)
    requires { (width ≤ line_long) × (5 * line_long ≤ length lines.old) }
    ensures { OddBack width (at lines.old) (at lines.new) }
{
    for k in 0..width {
        unpredict_at(lines, k);
    }
}
