// The whole-map engine: the transform of a whole height map to its plane and back, over areas that the caller lends.
#![tactic(auto)]

ghost use Rattle.std.specs.Prelude.{◌≡◌, ◌*◌, length};
ghost use Rattle.refusal.specs.Numbers.{answer};
ghost use Rattle.numbers.specs.Signal.{at};
ghost use Rattle.numbers.specs.Word.{whole, wrap32};
ghost use Rattle.areas.specs.Areas.{heights_at};
ghost use Rattle.wavelet.specs.Plane.{cells, flat, plane_of, map_back};
ghost use Rattle.wavelet.specs.Shape.{columns, rows};
ghost use Rattle.filters.specs.Filters.{filter_of};
ghost use Rattle.map_questions.specs.Calls.{forward_question, backward_question, zeros, passed, rebuilt};

use map_levels::sides::Sides;
use refusal::Refusal;
use wavelet::shape::Shape;

// The plane of a map of heights, by the filter of its shape. It passes, or the question that turned it away is told.
pub fn forward(
    heights: &[u16],
    shape: Shape,
    plane: &mut [i32],
    work: &mut [i32],
) -> Result<(), Refusal>
    ensures value { answer result ≡
        forward_question shape.filter (columns shape) (rows shape) shape.levels (length heights.now) (length plane.old)
        (length work.old) }
    ensures plane_after { at plane.new ≡
        passed (answer result) (shape.width * shape.height)
        (plane_of (filter_of shape.filter) whole shape.levels (columns shape) (rows shape) (cells shape.width (heights_at heights.now)))
        (at plane.old) }
    ensures work_after { at work.new ≡ passed (answer result) (shape.width * shape.height) zeros (at work.old) }
{
    let filter = shape.filter as usize;
    map_levels::lift_map(heights, Sides::of(shape), shape.levels, plane, work, filter)
}

// The map that has a plane, by the filter of its shape. It passes, or the question that turned it away is told: `OutOfRange` or `NoMap` where no map has it.
pub fn backward(
    plane: &[i32],
    shape: Shape,
    heights: &mut [u16],
    work: &mut [i32],
) -> Result<(), Refusal>
    ensures value { answer result ≡
        backward_question shape.filter (columns shape) (rows shape) shape.levels (length plane.now) (length heights.old)
        (length work.old) (cells shape.width (at plane.now)) }
    ensures heights_after { heights_at heights.new ≡
        rebuilt (answer result) (shape.width * shape.height)
        (flat shape.width (map_back (filter_of shape.filter) wrap32 shape.levels (columns shape) (rows shape)
        (cells shape.width (at plane.now))))
        (heights_at heights.old) }
    ensures work_after { at work.new ≡ rebuilt (answer result) (shape.width * shape.height) zeros (at work.old) }
{
    let filter = shape.filter as usize;
    map_levels::unlift_map(plane, Sides::of(shape), shape.levels, heights, work, filter)
}
