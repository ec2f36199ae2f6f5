// Rows of heights loaded into the plane, each in halves, and stored from the work area. The module is private, as `rowwise` is.
ghost use Rattle.std.specs.Prelude.{◌≡◌, ◌+◌, ◌-◌, ◌*◌, ◌<◌, ◌≤◌, pos, length, true};
ghost use Rattle.numbers.specs.Signal.{at, spliced};
ghost use Rattle.lifting.specs.Grid.{side, joined};
ghost use Rattle.lifting.specs.GridHalves.{halves_of};
ghost use Rattle.lifting.specs.Halves.{fronted};
ghost use Rattle.lifting.specs.FiveThree.{five_three_filter};
ghost use Rattle.wavelet.specs.Plane.{cells, flat};
ghost use Rattle.map_levels.specs.Rowwise.{heights_at, deinterleaved_in_place};
ghost use Rattle.map_levels.specs.Passes.{grid_halved, Rows};
ghost use Rattle.map_levels.specs.LevelPasses.{Finished};
ghost use Rattle.wavelet.specs.Maps.{every, value_fits};
ghost use Rattle.map_levels.specs.Sides.{columns, rows};

use crate::sides::Sides;
use crate::small;
use wavelet::sizes;

// Row m of the heights to row r of the plane, in halves.
fn load_to(heights: &[u16], m: usize, plane: &mut [i32], r: usize, x: usize, width: usize)
    requires { (0 < width) × (m * width + width ≤ length heights.now) × (r * width + width ≤ length plane.old) }
    ensures { at plane.new ≡
        spliced (r * width) width (deinterleaved_in_place (side x width) (cells width (heights_at heights.now) m)) (at plane.old) }
{
    let a = m * width;
    let e = a + width;
    let b = r * width;
    let f = b + width;
    let _ = areas::lines::part_line(&heights[a..e], x, &mut plane[b..f]);
}

// The heights of a map to the plane as a level takes them: the rows at even coordinates first, each row in halves. They are read one after the other, two a
// turn; the last of an odd number is alone.
pub fn load_rows(heights: &[u16], plane: &mut [i32], sides: Sides)
    requires { Rows (length heights.now) sides.width sides.width sides.height × Rows (length plane.old) sides.width sides.width sides.height }
    ensures { at plane.new ≡
        flat sides.width (grid_halved (columns sides) (rows sides) (cells sides.width (heights_at heights.now)) (cells sides.width (at plane.old))) }
{
    let b = sides.y % 2;
    let low = sizes::low_count(sides.y, sides.height);
    let pairs = sides.height / 2;
    for n in 0..pairs {
        load_to(heights, 2 * n, plane, b * low + n, sides.x, sides.width);
        load_to(
            heights,
            2 * n + 1,
            plane,
            (1 - b) * low + n,
            sides.x,
            sides.width,
        );
    }
    if 2 * pairs < sides.height {
        load_to(
            heights,
            2 * pairs,
            plane,
            b * low + pairs,
            sides.x,
            sides.width,
        );
    }
}

// A row in halves, whose numbers fit, to a row of heights as long, and cleared.
fn finish_row(row: &mut [i32], x: usize, heights: &mut [u16])
    requires { (length row.old ≡ length heights.old) × (every (length row.old) (λ i. value_fits five_three_filter 0 (at row.old i)) ≡ true) }
    ensures heights_after { heights_at heights.new ≡
        fronted (length row.old)
        (joined (side x (length row.old)) (halves_of (side x (length row.old)) (at row.old)))
        (heights_at heights.old) }
    ensures row_after { at row.new ≡ fronted (length row.old) (λ _. pos 0) (at row.old) }
{
    let _ = areas::lines::interleave_line(row, x, heights);
    let n = row.len();
    let _ = areas::copies::clear(row, n);
}

// The work area's rows in halves to heights, each tested, stored and cleared while it is near. False at the first number that is no height.
pub fn finish_rows(
    work: &mut [i32],
    heights: &mut [u16],
    x: usize,
    width: usize,
    height: usize,
) -> bool
    requires { Rows (length work.old) width width height × Rows (length heights.old) width width height }
    ensures { Finished result (side x width) height (at work.old) (at work.new)
        (heights_at heights.old) (heights_at heights.new) }
{
    for r in 0..height {
        let a = r * width;
        let e = a + width;
        if !small::all_heights(&work[a..e]) {
            return false;
        }
        finish_row(&mut work[a..e], x, &mut heights[a..e]);
    }
    true
}
