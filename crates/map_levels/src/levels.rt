// What the levels of both filters share: parts of areas copied, the low-low part on its way to the work area and back, and what is asked of a single row or
// column. The plane's rows are `across` apart at every level; x and y are where a level starts on the grid. The module is private: only this crate, which meets
// what is required, can call it.
ghost use Rattle.std.specs.Prelude.{◌≡◌, true, ◌+◌, ◌-◌, ◌*◌, ◌<◌, ◌≤◌, length};
ghost use Rattle.numbers.specs.Signal.{at, pick, windowed, spliced};
ghost use Rattle.numbers.specs.Tests.{every};
ghost use Rattle.lifting.specs.Grid.{side, single_high, is_even};
ghost use Rattle.wavelet.specs.Plane.{cells, flat};
ghost use Rattle.map_levels.specs.Rowwise.{deinterleaved_in_place, halved_in_place};
ghost use Rattle.map_levels.specs.Passes.{Rows, level_row, grid_halved, grid_copied};
ghost use Rattle.map_levels.specs.LevelPasses.{has_next, rows_even};
ghost use Rattle.map_levels.specs.Sides.{columns, rows};

use crate::sides::Sides;
use lifting::single;
use wavelet::sizes;

// The level's row for row r of the plane.
fn level_row(y: usize, height: usize, r: usize) -> usize
    requires { r < height }
    ensures { (result ≡ level_row (side y height) r) × (result < height) }
{
    let low = sizes::low_count(y, height);
    if r < low {
        return 2 * r + y % 2;
    }
    2 * (r - low) + (1 - y % 2)
}

// Whether more levels follow on a low-low part: an empty one has none.
pub fn has_next(levels: usize, low: Sides) -> bool
    ensures { result ≡ has_next levels low.width low.height }
{
    if levels < 2 {
        return false;
    }
    if low.width == 0 {
        return false;
    }
    0 < low.height
}

// n numbers from place a of one area to place b of another.
pub fn copy_part(from: &[i32], a: usize, to: &mut [i32], b: usize, n: usize)
    requires { (a + n ≤ length from.now) × (b + n ≤ length to.old) }
    ensures { at to.new ≡ spliced b n (windowed a n (at from.now)) (at to.old) }
{
    let e = a + n;
    let f = b + n;
    let _ = areas::copies::copy(&from[a..e], &mut to[b..f]);
}

// The same, a row that goes from its own order into halves.
pub fn halve_part(from: &[i32], a: usize, to: &mut [i32], b: usize, x: usize, n: usize)
    requires { (a + n ≤ length from.now) × (b + n ≤ length to.old) }
    ensures { at to.new ≡
        spliced b n (deinterleaved_in_place (side x n) (windowed a n (at from.now))) (at to.old) }
{
    let e = a + n;
    let f = b + n;
    let _ = areas::lines::part_line(&from[a..e], x, &mut to[b..f]);
}

// A grid from the plane's corner to the work area, its rows one after the other.
pub fn save(plane: &[i32], work: &mut [i32], across: usize, width: usize, height: usize)
    requires { Rows (length plane.now) across width height × Rows (length work.old) width width height }
    ensures { at work.new ≡
        flat width (grid_copied width height (cells across (at plane.now)) (cells width (at work.old))) }
{
    for r in 0..height {
        copy_part(plane, r * across, work, r * width, width);
    }
}

// And back to the corner as the level takes it: the low rows first, each row in halves.
pub fn spread(work: &[i32], plane: &mut [i32], across: usize, sides: Sides)
    requires { Rows (length work.now) sides.width sides.width sides.height × Rows (length plane.old) across sides.width sides.height }
    ensures { at plane.new ≡
        flat across (grid_halved (columns sides) (rows sides) (cells sides.width (at work.now)) (cells across (at plane.old))) }
{
    for r in 0..sides.height {
        let a = level_row(sides.y, sides.height, r) * sides.width;
        halve_part(work, a, plane, r * across, sides.x, sides.width);
    }
}

// Whether each row of a level is a line's: in a single column at an odd coordinate each value is halved, so it has to be even. The low-low part is empty
// then, and all of them stand in the plane.
pub fn rows_even(plane: &[i32], across: usize, x: usize, width: usize, height: usize) -> bool
    ensures { result ≡ rows_even (side x width) height (cells across (at plane.now)) }
{
    if !single::is_single(width, x) {
        return true;
    }
    single::column_even(plane, across, height)
}

// The columns of a level of one row lifted back: at an odd coordinate they are halved, and the answer is whether each was even.
pub fn unlift_single(work: &mut [i32], width: usize, y: usize) -> bool
    requires { width ≤ length work.old }
    ensures value { result ≡ pick (single_high (side y 1)) (every width (λ c. is_even (at work.old c))) true }
    ensures work_after { at work.new ≡ pick (single_high (side y 1)) (halved_in_place width (at work.old)) (at work.old) }
{
    if y % 2 == 0 {
        return true;
    }
    single::halve_all(&mut work[0..width])
}
