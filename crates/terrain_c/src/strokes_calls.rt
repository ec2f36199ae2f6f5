// Brush strokes. What the call says is `strokes`'s.
ghost use Rattle.std.specs.Prelude.{◌≡◌, ◌*◌, length};
ghost use Rattle.numbers.specs.Signal.{at};
ghost use Rattle.areas.specs.Areas.{heights_at};
ghost use Rattle.map_questions.specs.Calls.{zeros, passed};
ghost use Rattle.strokes.specs.Strokes.{mend_question, mended_plane};

use strokes::rectangle::Rectangle;

// Stays: the arguments of the C call as they are, by document 02
// The plane of a map mended after a stroke in a rectangle, by the 5/3 from the origin; the heights are the new ones. The questions are 2, 3, 4, 5 and 19.
#[unsafe(no_mangle)]
pub extern "C" fn terrain_map_mend(
    heights: &[u16],
    width: usize,
    height: usize,
    levels: usize,
    rectangle: Rectangle,
    plane: &mut [i32],
    work: &mut [i32],
) -> u32
    ensures value { result ≡ mend_question width height levels rectangle (length heights.now) (length plane.old)
        (length work.old) }
    ensures plane_after { at plane.new ≡ passed result (width * height)
        (mended_plane levels width height rectangle (heights_at heights.now) (at plane.old)) (at plane.old) }
    ensures work_after { at work.new ≡ passed result (width * height) zeros (at work.old) }
{
    terrain::strokes_calls::terrain_map_mend(heights, width, height, levels, rectangle, plane, work)
}
