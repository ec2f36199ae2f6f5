// All levels of a whole map, from its heights to its plane and back, over areas that the caller lends.
#![tactic(auto)]

mod back_lines;
mod back_rows;
mod back_sweep;
mod heights;
mod level_ranges;
mod levels;
mod levels_back;
mod lines;
mod nine_seven_levels;
mod passes;
mod rowwise;
mod short;
mod short_back;
pub mod sides;
mod small;
mod sweep;

ghost use Rattle.std.specs.Prelude.{◌≡◌, ◌+◌, ◌-◌, ◌*◌, ◌≤◌, length, true};
ghost use Rattle.refusal.specs.Numbers.{answer};
ghost use Rattle.numbers.specs.Signal.{at};
ghost use Rattle.numbers.specs.Word.{whole, wrap32};
ghost use Rattle.lifting.specs.Halves.{fronted};
ghost use Rattle.wavelet.specs.Plane.{cells, flat, plane_of, map_back};
ghost use Rattle.wavelet.specs.Questions.{Sized};
ghost use Rattle.filters.specs.Filters.{filter_of};
ghost use Rattle.map_questions.specs.Calls.{size_questions, plane_questions, zeros, passed, rebuilt};
ghost use Rattle.map_levels.specs.Rowwise.{heights_at};
ghost use Rattle.lifting.specs.FiveThree.{five_three_filter};
ghost use Rattle.nine_seven.specs.NineSevenFilter.{nine_seven_filter};
ghost use Rattle.map_levels.specs.Passes.{KeptFrom};
ghost use Rattle.map_levels.specs.LevelPasses.{plane_written, region_in_range, MapRebuilt};
ghost use Rattle.map_levels.specs.Sides.{columns, rows};

use refusal::Refusal;
use sides::Sides;

// The map's plane by the 9/7: its rows are loaded into the plane and lifted there.
fn lift_in_place(heights: &[u16], sides: Sides, levels: usize, plane: &mut [i32], work: &mut [i32])
    requires { Sized sides.width sides.height levels × (sides.width * sides.height ≤ length heights.now) × (sides.width * sides.height ≤ length plane.old)
        × (sides.width * sides.height ≤ length work.old) }
    ensures plane_after { at plane.new ≡
        flat sides.width (plane_written nine_seven_filter levels (columns sides) (rows sides) (cells sides.width (heights_at heights.now))
        (cells sides.width (at plane.old))) }
    ensures kept_from { KeptFrom ((sides.height - 1) * sides.width + sides.width) (at work.old) (at work.new) }
{
    heights::load_rows(heights, plane, sides);
    nine_seven_levels::forward_levels(plane, work, sides.width, sides, levels);
}

// The map's plane by the filter of a number; the 5/3 goes from the heights straight to the plane.
fn lift_by(
    heights: &[u16],
    sides: Sides,
    levels: usize,
    plane: &mut [i32],
    work: &mut [i32],
    filter: usize,
)
    requires { Sized sides.width sides.height levels × (sides.width * sides.height ≤ length heights.now) × (sides.width * sides.height ≤ length plane.old)
        × (sides.width * sides.height ≤ length work.old) × (levels ≤ (filter_of filter).levels) }
    ensures plane_after { at plane.new ≡
        flat sides.width (plane_written (filter_of filter) levels (columns sides) (rows sides) (cells sides.width (heights_at heights.now))
        (cells sides.width (at plane.old))) }
    ensures kept_from { KeptFrom ((sides.height - 1) * sides.width + sides.width) (at work.old) (at work.new) }
{
    if filter == 0 {
        sweep::sweep_levels(heights, plane, work, true, sides.width, sides, levels);
        return;
    }
    lift_in_place(heights, sides, levels, plane, work);
}

// The map's plane, all questions passed.
fn transform(
    heights: &[u16],
    sides: Sides,
    levels: usize,
    plane: &mut [i32],
    work: &mut [i32],
    filter: usize,
)
    requires { Sized sides.width sides.height levels × (sides.width * sides.height ≤ length heights.now) × (sides.width * sides.height ≤ length plane.old)
        × (sides.width * sides.height ≤ length work.old) × (levels ≤ (filter_of filter).levels) }
    ensures plane_after { at plane.new ≡
        fronted (sides.width * sides.height) (plane_of (filter_of filter) whole levels (columns sides) (rows sides)
        (cells sides.width (heights_at heights.now))) (at plane.old) }
    ensures work_after { at work.new ≡ fronted (sides.width * sides.height) zeros (at work.old) }
{
    lift_by(heights, sides, levels, plane, work, filter);
    let _ = areas::copies::clear(work, sides.width * sides.height);
}

// The plane of a map of heights, or the question that turned it away.
pub fn lift_map(
    heights: &[u16],
    sides: Sides,
    levels: usize,
    plane: &mut [i32],
    work: &mut [i32],
    filter: usize,
) -> Result<(), Refusal>
    ensures value { answer result ≡
        size_questions filter sides.width sides.height levels (length heights.now) (length plane.old) (length work.old) 0 }
    ensures plane_after { at plane.new ≡
        passed (answer result) (sides.width * sides.height)
        (plane_of (filter_of filter) whole levels (columns sides) (rows sides) (cells sides.width (heights_at heights.now)))
        (at plane.old) }
    ensures work_after { at work.new ≡ passed (answer result) (sides.width * sides.height) zeros (at work.old) }
{
    map_questions::size_question(
        filter,
        sides.width,
        sides.height,
        levels,
        heights.len(),
        plane.len(),
        work.len(),
    )?;
    transform(heights, sides, levels, plane, work, filter);
    Ok(())
}

// The map of a plane in range by the 5/3, where its rebuilt values fit, and work zero; else false, and what stands in both areas is for the caller to clear.
fn rebuild_swept(
    plane: &[i32],
    sides: Sides,
    levels: usize,
    heights: &mut [u16],
    work: &mut [i32],
) -> bool
    requires { Sized sides.width sides.height levels × (sides.width * sides.height ≤ length plane.now) × (sides.width * sides.height ≤ length heights.old)
        × (sides.width * sides.height ≤ length work.old) × (levels ≤ five_three_filter.levels)
        × (region_in_range five_three_filter 1 levels (columns sides) (rows sides) (cells sides.width (at plane.now)) ≡ true) }
    ensures { MapRebuilt five_three_filter result (columns sides) (rows sides) levels (at plane.now) (heights_at heights.old)
        (heights_at heights.new) (at work.old) (at work.new) }
{
    let mut lines = [0; 5 * back_lines::LINE];
    if !levels_back::sweep_back(
        plane,
        heights,
        work,
        &mut lines,
        sides.width,
        sides,
        levels,
        0,
    ) {
        return false;
    }
    let _ = areas::copies::clear(work, sides.width * sides.height);
    true
}

// The same by the 9/7: the levels one after the other, and then the rows tested, stored and cleared.
fn rebuild_rows(
    plane: &[i32],
    sides: Sides,
    levels: usize,
    heights: &mut [u16],
    work: &mut [i32],
) -> bool
    requires { Sized sides.width sides.height levels × (sides.width * sides.height ≤ length plane.now) × (sides.width * sides.height ≤ length heights.old)
        × (sides.width * sides.height ≤ length work.old) × (levels ≤ nine_seven_filter.levels) }
    ensures { MapRebuilt nine_seven_filter result (columns sides) (rows sides) levels (at plane.now) (heights_at heights.old)
        (heights_at heights.new) (at work.old) (at work.new) }
{
    if !nine_seven_levels::back_levels(plane, work, sides.width, sides.width, sides, levels, 0) {
        return false;
    }
    heights::finish_rows(work, heights, sides.x, sides.width, sides.height)
}

// The same by the filter of a number.
fn rebuild(
    plane: &[i32],
    sides: Sides,
    levels: usize,
    heights: &mut [u16],
    work: &mut [i32],
    filter: usize,
) -> bool
    requires { Sized sides.width sides.height levels × (sides.width * sides.height ≤ length plane.now) × (sides.width * sides.height ≤ length heights.old)
        × (sides.width * sides.height ≤ length work.old) × (levels ≤ (filter_of filter).levels)
        × (region_in_range (filter_of filter) 1 levels (columns sides) (rows sides) (cells sides.width (at plane.now)) ≡ true) }
    ensures { MapRebuilt (filter_of filter) result (columns sides) (rows sides) levels (at plane.now) (heights_at heights.old)
        (heights_at heights.new) (at work.old) (at work.new) }
{
    if filter == 0 {
        return rebuild_swept(plane, sides, levels, heights, work);
    }
    rebuild_rows(plane, sides, levels, heights, work)
}

// The map of a plane in range, where its rebuilt values fit; else `NoMap`, and heights and work are zero.
fn restore(
    plane: &[i32],
    sides: Sides,
    levels: usize,
    heights: &mut [u16],
    work: &mut [i32],
    filter: usize,
) -> Result<(), Refusal>
    requires { Sized sides.width sides.height levels × (sides.width * sides.height ≤ length plane.now) × (sides.width * sides.height ≤ length heights.old)
        × (sides.width * sides.height ≤ length work.old) × (levels ≤ (filter_of filter).levels) }
    ensures value { answer result ≡ plane_questions (filter_of filter) (columns sides) (rows sides) levels (cells sides.width (at plane.now)) }
    ensures heights_after { heights_at heights.new ≡
        rebuilt (answer result) (sides.width * sides.height)
        (flat sides.width (map_back (filter_of filter) wrap32 levels (columns sides) (rows sides) (cells sides.width (at plane.now))))
        (heights_at heights.old) }
    ensures work_after { at work.new ≡ rebuilt (answer result) (sides.width * sides.height) zeros (at work.old) }
{
    if !level_ranges::plane_in_range(plane, sides, levels, filter) {
        return Err(Refusal::OutOfRange);
    }
    if !rebuild(plane, sides, levels, heights, work, filter) {
        let _ = areas::copies::clear(heights, sides.width * sides.height);
        let _ = areas::copies::clear(work, sides.width * sides.height);
        return Err(Refusal::NoMap);
    }
    Ok(())
}

// The map that has a plane, or the question that turned it away: `OutOfRange` or `NoMap` where no map has it.
pub fn unlift_map(
    plane: &[i32],
    sides: Sides,
    levels: usize,
    heights: &mut [u16],
    work: &mut [i32],
    filter: usize,
) -> Result<(), Refusal>
    ensures value { answer result ≡
        size_questions filter sides.width sides.height levels (length plane.now) (length heights.old) (length work.old)
        (plane_questions (filter_of filter) (columns sides) (rows sides) levels (cells sides.width (at plane.now))) }
    ensures heights_after { heights_at heights.new ≡
        rebuilt (answer result) (sides.width * sides.height)
        (flat sides.width (map_back (filter_of filter) wrap32 levels (columns sides) (rows sides) (cells sides.width (at plane.now))))
        (heights_at heights.old) }
    ensures work_after { at work.new ≡ rebuilt (answer result) (sides.width * sides.height) zeros (at work.old) }
{
    map_questions::size_question(
        filter,
        sides.width,
        sides.height,
        levels,
        plane.len(),
        heights.len(),
        work.len(),
    )?;
    restore(plane, sides, levels, heights, work, filter)
}
