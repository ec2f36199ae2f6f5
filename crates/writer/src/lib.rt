// The row-by-row writer: heights in, band rows out, in the order of document 01.
#![tactic(auto)]

mod after;
mod cascade;
mod closing;
mod copies;
mod draws;
mod offers;
mod questions;
mod run_steps;
pub mod runs;
mod spare;

ghost use Rattle.std.specs.Prelude.{◌≡◌, ◌<◌, length, IfOk, IfSome};
ghost use Rattle.numbers.specs.Signal.{at};
ghost use Rattle.wavelet.specs.Limits.{max_width, max_height, max_levels, max_origin};
ghost use Rattle.wavelet.specs.Shape.{columns};
ghost use Rattle.filters.specs.Filters.{filter_of};
ghost use Rattle.writer.specs.Answers.{of_set_up, of_offered, of_drawn, of_look, of_finished};
ghost use Rattle.writer.specs.Calls.{set_up_reply, set_up_store, offer_reply, offer_store, draw_reply, draw_store, draw_area, waits_reply, finish_reply};
ghost use Rattle.writer.specs.Calls.{finish_store};
ghost use Rattle.writer.specs.Holds.{SetUpHolds, OfferKeeps, DrawKeeps, FinishKeeps};

use progress::levels;
use refusal::Refusal;
use wavelet::shape::Shape;

// The counts of a writer; docs/STATE.md gives their ranges.
// Stays: `finished`, and a number for the filter: the caller's array holds any number there, and each call's contract speaks of every one.
#[derive(Clone, Copy)]
pub struct Writer {
    pub width: usize,
    pub levels: usize,
    // the coordinates of the first column and of the first row
    pub x: usize,
    pub y: usize,
    // rows taken whole
    pub rows: usize,
    // heights taken of the row begun; while band rows wait none is begun, and these stand in the spare row
    pub column: usize,
    pub finished: bool,
    // steps of the closing that the finish has done, as many a level as its look-ahead
    pub closed: usize,
    // the level, from 1, whose set is being handed out; 0: nothing waits
    pub level: usize,
    // the bands of that set that are left
    pub left: usize,
    // where that level's stretch of the line store begins; 0: nothing waits
    pub offset: usize,
    // the filter's number: 0 the 5/3, 1 the integer 9/7
    pub filter: usize,
}

// A band row that was drawn: its values stand at the front of the output area.
// Stays: the band is a number, since a caller gets it as one, and the theorems of `Demand3` name it by its code.
#[derive(Clone, Copy)]
pub struct BandRow {
    pub level: usize,
    pub band: usize,
    pub row: usize,
    pub length: usize,
}

// The heights that an offer took, and the writer then.
#[derive(Clone, Copy)]
pub struct Taken {
    pub heights: usize,
    pub writer: Writer,
}

// The band row that a draw handed out, and the writer then.
#[derive(Clone, Copy)]
pub struct Drawn {
    pub row: BandRow,
    pub writer: Writer,
}

impl Writer {
    pub const MAX_WIDTH: usize = 2049;

    pub const MAX_HEIGHT: usize = 4294967295;

    // by the 5/3, and by the integer 9/7
    pub const MAX_LEVELS: usize = 5;

    pub const MAX_LEVELS_NINE_SEVEN: usize = 4;

    pub const MAX_ORIGIN: usize = 65535;

    // The constants, each pinned to the definition's number.
    pub fn max_width() -> usize
        ensures { result ≡ max_width }
    {
        Writer::MAX_WIDTH
    }

    pub fn max_height() -> usize
        ensures { result ≡ max_height }
    {
        Writer::MAX_HEIGHT
    }

    pub fn max_levels() -> usize
        ensures { result ≡ max_levels }
    {
        Writer::MAX_LEVELS
    }

    // by the filter's number
    pub fn most_levels(filter: usize) -> usize
        ensures { result ≡ (filter_of filter).levels }
    {
        if filter == 0 {
            Writer::MAX_LEVELS
        } else {
            Writer::MAX_LEVELS_NINE_SEVEN
        }
    }

    pub fn max_origin() -> usize
        ensures { result ≡ max_origin }
    {
        Writer::MAX_ORIGIN
    }

    // A fresh writer, and zeros in the part of the store that it needs. A writer need not know how many rows will come: it does not read the shape's height.
    pub fn set_up(shape: Shape, store: &mut [i32]) -> Result<Writer, Refusal>
        ensures result_value { of_set_up result ≡ set_up_reply shape.filter (columns shape) shape.y shape.levels (length store.old) }
        ensures store_after { at store.new ≡ set_up_store shape.filter (columns shape) shape.levels (length store.old)
            (at store.old) }
        ensures set_up_holds { SetUpHolds (of_set_up result) (at store.new) }
    {
        let filter = shape.filter as usize;
        let x = shape.x as usize;
        questions::set_up_question(filter, shape.width, x, shape.levels, store.len())?;
        let n = filters::writer_store_length(filter, shape.width, x, shape.levels);
        copies::clear(store, n);
        Ok(Writer {
            width: shape.width,
            levels: shape.levels,
            x,
            y: shape.y as usize,
            rows: 0,
            column: 0,
            finished: false,
            closed: 0,
            level: 0,
            left: 0,
            offset: 0,
            filter,
        })
    }

    // Heights taken until a band row waits, the row limit is reached or the run is used up, and how many; while band rows wait, those that the spare row
    // has room for.
    pub fn offer(self, store: &mut [i32], run: &[u16]) -> Result<Taken, Refusal>
        ensures result_value { of_offered result ≡ offer_reply self (length store.old) run.now (at store.old) }
        ensures store_after { at store.new ≡ offer_store self (length store.old) run.now (at store.old) }
        ensures offer_keeps { OfferKeeps self run.now (at store.old) (of_offered result) (at store.new) }
    {
        questions::offer_question(self, store.len(), run.len())?;
        if 0 < self.level {
            let held = spare::room(self, run.len());
            return Ok(Taken {
                heights: held,
                writer: spare::hold(self, store, run, held),
            });
        }
        let mut s = self;
        let mut taken = 0;
        let mut n = offers::first(s, run.len());
        // Stays: a turn takes as many heights as the row, the wait and the run leave, so no range or iterator tells the turns.
        while 0 < n {
            s = offers::put_heights(s, store, run, taken, n);
            taken += n;
            n = offers::next(s, run.len() - taken);
        }
        Ok(Taken {
            heights: taken,
            writer: s,
        })
    }

    // The row that waits, its values at the front of `out`, or None. Once nothing waits, the heights of the spare row go on.
    pub fn draw(self, store: &mut [i32], out: &mut [i32]) -> Result<Option<Drawn>, Refusal>
        ensures result_value { of_drawn result ≡ draw_reply self (length store.old) (length out.old) (at store.old) }
        ensures store_after { at store.new ≡ draw_store self (length store.old) (length out.old) (at store.old) }
        ensures out_after { at out.new ≡ draw_area self (length store.old) (length out.old) (at store.old)
            (at out.old) }
        ensures draw_keeps { DrawKeeps self (at store.old) (of_drawn result) (at store.new) (at out.new) }
    {
        let fits = questions::in_ranges(self);
        questions::state_question(self, fits, store.len())?;
        if self.level == 0 {
            return Ok(None);
        }
        let q = levels::level_of(
            self.filter,
            self.width,
            self.x,
            self.y,
            self.closed,
            self.level,
            self.rows,
        );
        let spot = draws::waiting(self, q);
        if out.len() < spot.length {
            return Err(Refusal::OutShort);
        }
        copies::hand_out(store, spot.start, spot.length, out);
        let next = after::draw_and_move(self, q, store);
        Ok(Some(Drawn {
            row: BandRow {
                level: spot.level,
                band: spot.band,
                row: spot.row,
                length: spot.length,
            },
            writer: next,
        }))
    }

    // The row that the next draw hands out; None where nothing waits, and only there.
    pub fn waits(self) -> Result<Option<BandRow>, Refusal>
        ensures value { of_look result ≡ waits_reply self }
        ensures some { IfOk result (λ row. IfSome row (λ b. 0 < b.level)) }
    {
        if !questions::in_ranges(self) {
            return Err(Refusal::BadState);
        }
        if 0 < self.level {
            let q = levels::level_of(
                self.filter,
                self.width,
                self.x,
                self.y,
                self.closed,
                self.level,
                self.rows,
            );
            return Ok(Some(draws::looked(self, q)));
        }
        Ok(None)
    }

    // No more rows: the levels close in turn, until a row waits.
    pub fn finish(self, store: &mut [i32]) -> Result<Writer, Refusal>
        ensures result_value { of_finished result ≡ finish_reply self (length store.old) (at store.old) }
        ensures store_after { at store.new ≡ finish_store self (length store.old) (at store.old) }
        ensures finish_keeps { FinishKeeps self (at store.old) (of_finished result) (at store.new) }
    {
        questions::finish_question(self, store.len())?;
        let r = closing::flush(
            self.filter,
            store,
            self.levels,
            self.width,
            self.x,
            self.y,
            0,
            self.rows,
        );
        Ok(Writer {
            finished: true,
            closed: r.closed,
            level: r.wait.level,
            left: r.wait.left,
            offset: r.wait.offset,
            ..self
        })
    }
}
