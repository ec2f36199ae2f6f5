// The steps of a listing, each on the whole state: what was read goes to the writer, and the next band row that waits becomes the line. The module is
// private: `listing` has the calls.
ghost use Rattle.std.specs.Prelude.{◌≡◌, length};
ghost use Rattle.numbers.specs.Signal.{at};
ghost use Rattle.level.specs.Level.{Memory};
ghost use Rattle.refusal.specs.Numbers.{number};
ghost use Rattle.listing.specs.States.{state_of, listed, Leaves, refused_to, draw_state, begin_state, offer_state, finish_state, read_state, value_part, advance_state};

use crate::line::Line;
use crate::listing::Listing;
use pgm::input::{Input, Step};
use refusal::Refusal;
use wavelet::limits;
use wavelet::shape::Shape;
use writer::Writer;

// A refusal, whatever it is: no more is read.
pub fn refuse(input: Input, writer: Writer, why: Refusal) -> Listing
    ensures { result ≡ refused_to input writer (number why) }
{
    Listing {
        input: input.at_phase(4),
        writer,
        line: Line::refused(why.number() as usize),
    }
}

// The next band row that waits becomes the line.
#[tactic(auto, unfolding(crate::specs::States::draw_state))]
pub fn draw(input: Input, writer: Writer, store: &mut [i32], row: &mut [i32]) -> Listing
    ensures { Leaves (draw_state (length store.old) (length row.old) input writer (at store.old)
        (at row.old)) result (at store.new) (at row.new) }
{
    match writer.draw(store, row) {
        Ok(Some(drawn)) => Listing {
            input,
            writer: drawn.writer,
            line: Line::band_row(
                drawn.row.level,
                drawn.row.band,
                drawn.row.row,
                drawn.row.length,
            ),
        },
        Ok(None) => Listing {
            input,
            writer,
            line: Line::none(),
        },
        Err(why) => refuse(input, writer, why),
    }
}

// The head is read: a fresh writer, and the line of W, H and L. A picture starts at coordinate 0, and the filter is the 5/3.
#[tactic(auto, unfolding(crate::specs::States::begin_state))]
fn begin(input: Input, writer: Writer, width: usize, height: usize, store: &mut [i32]) -> Listing
    // whatever stands in the row area
    ensures { (z : Memory) → Leaves (begin_state (length store.old) input writer width height (at store.old) z) result
        (at store.new) z }
{
    let levels = input.levels;
    let shape = Shape {
        width,
        height,
        levels,
        x: 0,
        y: 0,
        filter: 0,
    };
    match Writer::set_up(shape, store) {
        Ok(fresh) => Listing {
            input,
            writer: fresh,
            line: Line::size(width, height, levels),
        },
        Err(why) => refuse(input, writer, why),
    }
}

#[tactic(auto, unfolding(crate::specs::States::offer_state))]
fn offer(input: Input, writer: Writer, height: u16, store: &mut [i32], row: &mut [i32]) -> Listing
    ensures { Leaves (offer_state (length store.old) (length row.old) input writer height (at store.old)
        (at row.old)) result (at store.new) (at row.new) }
{
    let run = [height; 1];
    match writer.offer(store, &run) {
        Ok(taken) => draw(input, taken.writer, store, row),
        Err(why) => refuse(input, writer, why),
    }
}

#[tactic(auto, unfolding(crate::specs::States::finish_state))]
pub fn finish(input: Input, writer: Writer, store: &mut [i32], row: &mut [i32]) -> Listing
    ensures { Leaves (finish_state (length store.old) (length row.old) input writer (at store.old)
        (at row.old)) result (at store.new) (at row.new) }
{
    match writer.finish(store) {
        Ok(next) => draw(input, next, store, row),
        Err(why) => refuse(input, writer, why),
    }
}

// One byte of the input, while no line is being written.
#[tactic(auto, unfolding(crate::specs::States::read_state, wavelet::specs::Limits::max_levels))]
pub fn read(listing: Listing, byte: u8, store: &mut [i32], row: &mut [i32]) -> Listing
    ensures { Leaves (read_state (length store.old) (length row.old) byte
        (state_of listing (at store.old) (at row.old))) result (at store.new) (at row.new) }
{
    let input = listing.input;
    let writer = listing.writer;
    match input.read(byte, limits::MAX_LEVELS) {
        Ok(Step::More(next)) => Listing {
            input: next,
            writer,
            line: Line::none(),
        },
        Ok(Step::Begun(next, width, height)) => begin(next, writer, width, height, store),
        Ok(Step::Height(next, height)) => offer(next, writer, height, store, row),
        Err(no) => refuse(no.input, writer, no.why),
    }
}

pub fn with_line(listing: Listing, line: Line) -> Listing
    ensures { result ≡ listed listing.input listing.writer line }
{
    Listing { line, ..listing }
}

// The line with the value v next.
pub fn at_value(line: Line, v: usize) -> Line
    ensures { result ≡ value_part line v }
{
    Line {
        part: 4,
        value: v,
        done: 0,
        ..line
    }
}

// The line's part is written whole: what comes after it.
#[tactic(auto, unfolding(crate::specs::States::advance_state))]
pub fn advance(listing: Listing, store: &mut [i32], row: &mut [i32]) -> Listing
    ensures { Leaves (advance_state (length store.old) (length row.old)
        (state_of listing (at store.old) (at row.old))) result (at store.new) (at row.new) }
{
    let line = listing.line;
    if line.part < 3 {
        return with_line(listing, Line::none());
    }
    if line.part == 3 {
        return with_line(listing, at_value(line, 0));
    }
    if line.value < line.length {
        return with_line(listing, at_value(line, line.value + 1));
    }
    draw(listing.input, listing.writer, store, row)
}
