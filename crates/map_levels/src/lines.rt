// Two lines of columns, and what is done to them: the columns of three rows lifted into them, a line put into a row of the plane. The module is private, as
// `rowwise` is.
ghost use Rattle.std.specs.Prelude.{◌≡◌, true, false, ℕ, ◌+◌, ◌*◌, ◌<◌, ◌≤◌, ℤ, length};
ghost use Rattle.numbers.specs.Signal.{at, pick, windowed, spliced};
ghost use Rattle.lifting.specs.Grid.{side};
ghost use Rattle.areas.specs.Areas.{heights_at};
ghost use Rattle.map_levels.specs.Sweep.{line_half, line_at, place_lifted, place_ended, ColumnsMade, SmallLine, short_lifted, line_lifted, source_grid};

use crate::{levels, rowwise, short};
use areas::elements::Element;

// Two lines stand in one array at fixed distances, the high one first: the compiler then needs no test whether they overlap. Of a line the even columns come
// first, and HALF numbers further its odd ones.
pub const HALF: usize = (rowwise::LONGEST / 16 + 1) * 16;

// One column at place k of the lines: e is the number of a low row, b that of the high row after it and c that of the low row after that.
fn lift_place(lines: &mut [i32], k: usize, e: i32, b: i32, c: i32)
    requires { (k < 2 * line_half) × (4 * line_half ≤ length lines.old) }
    ensures { at lines.new ≡ place_lifted k e b c (at lines.old) }
{
    let d = short::predict(b, e, c);
    lines[2 * HALF + k] = short::update(e, lines[k], d);
    lines[k] = d;
}

// The same of the elements p, q and r of an area.
fn lift_elements<T: Element>(area: &[T], p: usize, q: usize, r: usize, lines: &mut [i32], k: usize)
    requires { (p < length area.now) × (q < length area.now) × (r < length area.now) × (k < 2 * line_half) × (4 * line_half ≤ length lines.old) }
    ensures { at lines.new ≡
        place_lifted k (T.read area.now p) (T.read area.now q) (T.read area.now r) (at lines.old) }
{
    lift_place(lines, k, area[p].value(), area[q].value(), area[r].value());
}

// All columns of the rows of an area that begin at places a, b and c: a pair a turn, which parts them on the way.
fn lift_all<T: Element>(area: &[T], a: usize, b: usize, c: usize, width: usize, lines: &mut [i32])
    requires { (a + width ≤ length area.now) × (b + width ≤ length area.now) × (c + width ≤ length area.now) × (width ≤ 2 * line_half)
        × (4 * line_half ≤ length lines.old) }
    ensures { ColumnsMade false width (λ i. T.read area.now (a + i)) (λ i. T.read area.now (b + i))
        (λ i. T.read area.now (c + i)) (at lines.old) (at lines.new) }
{
    let pairs = width / 2;
    for k in 0..pairs {
        let i = 2 * k;
        let j = i + 1;
        lift_elements(area, a + i, b + i, c + i, lines, k);
        lift_elements(area, a + j, b + j, c + j, lines, HALF + k);
    }
    let i = 2 * pairs;
    if i < width {
        lift_elements(area, a + i, b + i, c + i, lines, pairs);
    }
}

// The last low row where no high row follows: the high row before it counts twice. e is the number of a column at place k.
fn end_place(lines: &mut [i32], k: usize, e: i32)
    requires { (k < 2 * line_half) × (4 * line_half ≤ length lines.old) }
    ensures { at lines.new ≡ place_ended k e (at lines.old) }
{
    lines[2 * HALF + k] = short::update(e, lines[k], lines[k]);
}

fn end_all<T: Element>(area: &[T], a: usize, width: usize, lines: &mut [i32])
    requires { (a + width ≤ length area.now) × (width ≤ 2 * line_half) × (4 * line_half ≤ length lines.old) }
    ensures { (b c : ℕ → ℤ) → ColumnsMade true width (λ i. T.read area.now (a + i)) b c (at lines.old)
        (at lines.new) }
{
    for i in 0..width {
        end_place(lines, i % 2 * HALF + i / 2, area[a + i].value());
    }
}

// Rows a, b and c of what a level is read from: the heights, or the work area.
pub fn lift_columns(
    heights: &[u16],
    work: &[i32],
    first: bool,
    a: usize,
    b: usize,
    c: usize,
    width: usize,
    lines: &mut [i32],
)
    requires { (a * width + width ≤ pick first (length heights.now) (length work.now))
        × (b * width + width ≤ pick first (length heights.now) (length work.now))
        × (c * width + width ≤ pick first (length heights.now) (length work.now)) × (width ≤ 2 * line_half) × (4 * line_half ≤ length lines.old) }
    ensures { ColumnsMade false width (source_grid first width (heights_at heights.now) (at work.now) a)
        (source_grid first width (heights_at heights.now) (at work.now) b)
        (source_grid first width (heights_at heights.now) (at work.now) c) (at lines.old) (at lines.new) }
{
    if first {
        lift_all(heights, a * width, b * width, c * width, width, lines);
        return;
    }
    lift_all(work, a * width, b * width, c * width, width, lines);
}

// And row a alone, the last one.
pub fn end_columns(
    heights: &[u16],
    work: &[i32],
    first: bool,
    a: usize,
    width: usize,
    lines: &mut [i32],
)
    requires { (a * width + width ≤ pick first (length heights.now) (length work.now)) × (width ≤ 2 * line_half) × (4 * line_half ≤ length lines.old) }
    ensures { (b c : ℕ → ℤ) → ColumnsMade true width (source_grid first width (heights_at heights.now) (at work.now) a) b c
        (at lines.old) (at lines.new) }
{
    if first {
        end_all(heights, a * width, width, lines);
        return;
    }
    end_all(work, a * width, width, lines);
}

// The line that begins at place `base` to row r of the plane, in halves: lifted there, the row is the line lifted.
pub fn lay_line(
    lines: &[i32],
    base: usize,
    plane: &mut [i32],
    across: usize,
    r: usize,
    x: usize,
    width: usize,
)
    requires { (base + 2 * line_half ≤ length lines.now) × (width ≤ 2 * line_half) × (width ≤ across) × (r * across + width ≤ length plane.old) }
    ensures { SmallLine width (line_at base (at lines.now)) → (z : ℕ → ℤ) →
        z ≡ spliced (r * across) width (short_lifted (side x width) (windowed (r * across) width (at plane.new))) (at plane.new) →
        z ≡ spliced (r * across) width (line_lifted (side x width) (line_at base (at lines.now))) (at plane.old) }
{
    let q = r * across;
    let even = q + areas::rows::evens(width, x);
    let odd = q + areas::rows::odds(width, x);
    levels::copy_part(lines, base, plane, even, width - width / 2);
    levels::copy_part(lines, base + HALF, plane, odd, width / 2);
}
