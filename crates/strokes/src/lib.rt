// Brush strokes: a plane mended where a rectangle of its map was painted. Document 02, Q-9. The work is local: the window of heights that what the rectangle
// reaches depends on is lifted by itself in the work area.
#![tactic(auto)]

mod direction;
mod levels;
mod patch;
pub mod rectangle;
mod window;

ghost use Rattle.std.specs.Prelude.{◌≡◌, true, ◌*◌, ◌≤◌, length};
ghost use Rattle.numbers.specs.Signal.{at};
ghost use Rattle.lifting.specs.Halves.{fronted};
ghost use Rattle.wavelet.specs.Plane.{cells, flat};
ghost use Rattle.wavelet.specs.Questions.{Sized};
ghost use Rattle.areas.specs.Areas.{heights_at};
ghost use Rattle.map_questions.specs.Calls.{zeros, passed};
ghost use Rattle.refusal.specs.Numbers.{answer};
ghost use Rattle.strokes.specs.Strokes.{mend_question, mended_plane, lies_in};

use rectangle::Rectangle;
use refusal::Refusal;

// A stroke: the size of its map, and the rectangle that was painted.
#[derive(Clone, Copy)]
struct Stroke {
    width: usize,
    height: usize,
    levels: usize,
    rectangle: Rectangle,
}

// The plane mended where the rectangle reaches, all questions passed. What stands in the work area afterwards is for the caller to clear: this is the local
// work, and it is timed by itself.
fn mend_window(heights: &[u16], s: Stroke, plane: &mut [i32], work: &mut [i32])
    requires { Sized s.width s.height s.levels × (s.width * s.height ≤ length heights.now) × (s.width * s.height ≤ length plane.old)
        × (s.width * s.height ≤ length work.old) × (lies_in s.rectangle s.width s.height ≡ true) }
    ensures { at plane.new ≡
        fronted (s.width * s.height)
        (mended_plane s.levels s.width s.height s.rectangle (heights_at heights.now) (at plane.old)) (at plane.old) }
{
    let q = s.rectangle;
    let columns = direction::widened(s.width, q.left, q.width, s.levels);
    let rows = direction::widened(s.height, q.top, q.height, s.levels);
    window::load(heights, s.width, columns, rows, work);
    levels::mend_levels(work, plane, s.width, columns, rows, s.levels);
}

// The same, and the work area zero.
fn mend_map(heights: &[u16], s: Stroke, plane: &mut [i32], work: &mut [i32])
    requires { Sized s.width s.height s.levels × (s.width * s.height ≤ length heights.now) × (s.width * s.height ≤ length plane.old)
        × (s.width * s.height ≤ length work.old) × (lies_in s.rectangle s.width s.height ≡ true) }
    ensures plane_after { at plane.new ≡
        fronted (s.width * s.height)
        (mended_plane s.levels s.width s.height s.rectangle (heights_at heights.now) (at plane.old)) (at plane.old) }
    ensures work_after { at work.new ≡ fronted (s.width * s.height) zeros (at work.old) }
{
    let n = s.width * s.height;
    mend_window(heights, s, plane, &mut work[0..n]);
    let _ = areas::copies::clear(work, n);
}

// The plane of a map mended after a stroke in a rectangle of it, the heights being the new ones; or the question that turned it away.
// Stays: the arguments of the C call as they are, by document 02
pub fn mend(
    heights: &[u16],
    width: usize,
    height: usize,
    levels: usize,
    rectangle: Rectangle,
    plane: &mut [i32],
    work: &mut [i32],
) -> Result<(), Refusal>
    ensures value { answer result ≡
        mend_question width height levels rectangle (length heights.now) (length plane.old) (length work.old) }
    ensures plane_after { at plane.new ≡
        passed (answer result) (width * height)
        (mended_plane levels width height rectangle (heights_at heights.now) (at plane.old)) (at plane.old) }
    ensures work_after { at work.new ≡ passed (answer result) (width * height) zeros (at work.old) }
{
    map_questions::size_question(
        0,
        width,
        height,
        levels,
        heights.len(),
        plane.len(),
        work.len(),
    )?;
    if !rectangle::lies_in(rectangle, width, height) {
        return Err(Refusal::BadRectangle);
    }
    let stroke = Stroke {
        width,
        height,
        levels,
        rectangle,
    };
    mend_map(heights, stroke, plane, work);
    Ok(())
}
