// The whole map, and where a band row stands in its plane. What the calls say is `whole_map`'s and the view's.
ghost use Rattle.std.specs.Prelude.{◌≡◌, ◌*◌, length, eqb};
ghost use Rattle.numbers.specs.Signal.{at, pick};
ghost use Rattle.numbers.specs.Word.{whole, wrap32};
ghost use Rattle.filters.specs.Filters.{filter_of};
ghost use Rattle.wavelet.specs.Plane.{cells, flat, plane_of, map_back};
ghost use Rattle.wavelet.specs.Shape.{columns, rows};
ghost use Rattle.wavelet.specs.ViewCall.{view_question, view_start, view_length};
ghost use Rattle.areas.specs.Areas.{heights_at};
ghost use Rattle.map_questions.specs.Calls.{forward_question, backward_question, zeros, passed, rebuilt};

use wavelet::shape::Shape;
use wavelet::view;

// A map of heights to its plane, by the filter of its shape. The questions are 2, 3, 18, 4 and 5.
pub fn terrain_map_forward(
    heights: &[u16],
    shape: Shape,
    plane: &mut [i32],
    work: &mut [i32],
) -> u32
    ensures value { result ≡ forward_question shape.filter (columns shape) (rows shape) shape.levels (length heights.now)
        (length plane.old) (length work.old) }
    ensures plane_after { at plane.new ≡ passed result (shape.width * shape.height)
        (plane_of (filter_of shape.filter) whole shape.levels (columns shape) (rows shape) (cells shape.width (heights_at heights.now)))
        (at plane.old) }
    ensures work_after { at work.new ≡ passed result (shape.width * shape.height) zeros (at work.old) }
{
    refusal::code(whole_map::forward(heights, shape, plane, work)) as u32
}

// A plane to the map that has it. The questions are 2, 3, 18, 4, 5, 7 and 14.
pub fn terrain_map_backward(
    plane: &[i32],
    shape: Shape,
    heights: &mut [u16],
    work: &mut [i32],
) -> u32
    ensures value { result ≡ backward_question shape.filter (columns shape) (rows shape) shape.levels (length plane.now)
        (length heights.old) (length work.old) (cells shape.width (at plane.now)) }
    ensures heights_after { heights_at heights.new ≡ rebuilt result (shape.width * shape.height)
        (flat shape.width (map_back (filter_of shape.filter) wrap32 shape.levels (columns shape) (rows shape)
        (cells shape.width (at plane.now))))
        (heights_at heights.old) }
    ensures work_after { at work.new ≡ rebuilt result (shape.width * shape.height) zeros (at work.old) }
{
    refusal::code(whole_map::backward(plane, shape, heights, work)) as u32
}

// First place and length of a band row in a plane of `len` numbers. The questions are 2, 3, 4, 5 and 6; a no leaves both numbers. The filter is not
// read: sizes alone say where a band row stands.
pub fn terrain_band_row(
    len: usize,
    shape: Shape,
    level: usize,
    band: usize,
    row: usize,
    start: &mut usize,
    count: &mut usize,
) -> u32
    ensures value { result ≡ view_question len (columns shape) (rows shape) shape.levels level band row }
    ensures start_after { start.new ≡ pick (eqb result 0) (view_start (columns shape) (rows shape) level band row) start.old }
    ensures count_after { count.new ≡ pick (eqb result 0) (view_length (columns shape) level band) count.old }
{
    match view::locate(len, shape, level, band, row) {
        Ok(span) => {
            *start = span.start;
            *count = span.length;
            0
        }
        Err(why) => why.number() as u32,
    }
}
