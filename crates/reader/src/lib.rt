// The row-by-row reader: band rows in, in the order that it wants them, height rows out. A state of numbers by value; the line store is the caller's.
#![tactic(auto)]

mod last;
mod limited;
mod questions;
mod run_steps;
pub mod runs;
mod steps;
pub mod stops;
mod walk;

ghost use Rattle.std.specs.Prelude.{◌≡◌, false, ◌<◌, ◌≤◌, length};
ghost use Rattle.lifting.specs.Grid.{side};
ghost use Rattle.numbers.specs.Signal.{at};
ghost use Rattle.wavelet.specs.Limits.{max_width, max_height, max_levels, max_origin};
ghost use Rattle.wavelet.specs.Shape as shape;
ghost use Rattle.filters.specs.Filters.{filter_of};
ghost use Rattle.areas.specs.Areas.{heights_at};
ghost use Rattle.lifting.specs.Halves.{fronted};
ghost use Rattle.reader_steps.specs.Places.{spot, place_of};
ghost use Rattle.filters.specs.Figures.{store_by};
ghost use Rattle.reader.specs.Store.{zeroed};
ghost use Rattle.reader.specs.Inside.{Counts, Small, Due};
ghost use Rattle.reader.specs.State.{columns, rows, needs, wants, moved_to, drawn_reader, ended_reader};
ghost use Rattle.reader.specs.Questions.{set_up_question, stop_question, tolerant_question, want_question, feed_question, draw_question};
ghost use Rattle.reader.specs.Holds.{SetUpHolds, FeedKeeps, DrawKeeps};
ghost use Rattle.reader.specs.declared.ReadError.TheVariants.{Refused};
ghost use Rattle.reader.specs.Answers.{gives, of_set_up, of_wanted, of_fed, of_drawn};
ghost use Rattle.reader.specs.Stops.{stop_reply};
ghost use Rattle.reader.specs.Reading as all;
ghost use Rattle.reader.specs.Calls.{fresh_by, set_up_reply, tolerant_reply, set_up_store, want_reply, feed_reply, feed_store};
ghost use Rattle.reader.specs.Calls.{draw_reply, draw_store, draw_area, height_row};

use areas::copies;
use reader_steps::places;
use reader_steps::places::{Sides, Spot};
use refusal::Refusal;
use synthesis::back;
use walk::Next;
use wavelet::shape::Shape;

// The counts of a reader; docs/STATE.md gives their ranges. Its map starts at (x, y). `drawn` height rows are drawn; rows of `level` are collected (0: a height
// row can be drawn), and `band` is the code of the first band that may be next. They are rows of the set that is `back` before the last of its level that row
// `drawn` needs. `filter` is the number of the filter, which says what each level does.
// With a `stop` (document 02, Q-6; 0: none) it reads the low-low part of that level of a map: size, origin and levels are the low-low part's, a level is
// counted from the stop, and `spare` are the numbers that the map's line store has beside its own. No levels: its rows are fed and drawn one after another.
// `admission` says what becomes of a value outside its level's range: 0, it ends the reader (14); 1, it is limited to the range (document 02, Q-10).
// Stays: `ended`, and numbers for band, filter and admission: the caller's array holds any number there, and each call's contract speaks of every one.
#[derive(Clone, Copy)]
pub struct Reader {
    pub width: usize,
    pub height: usize,
    pub levels: usize,
    pub x: usize,
    pub y: usize,
    pub drawn: usize,
    pub level: usize,
    pub back: usize,
    pub band: usize,
    pub ended: bool,
    pub filter: usize,
    pub stop: usize,
    pub spare: usize,
    pub admission: usize,
}

// What it wants: a band row by its level, its band's code, its number in the band and its length; or a draw, or nothing.
#[derive(Clone, Copy)]
pub enum Wanted {
    Row {
        level: usize,
        band: usize,
        row: usize,
        length: usize,
    },
    Draw,
    Done,
    Ended,
}

// Why a feed or a draw does not go on. Impossible is document 01's 14: no map has the rows fed. It holds the reader, ended. Refused never holds 14.
#[derive(Clone, Copy)]
pub enum ReadError {
    Impossible(Reader),
    Refused(Refusal),
}

impl From<Refusal> for ReadError {
    ghost from_gives = { λ why e. e ≡ Refused why };

    fn from(why: Refusal) -> ReadError {
        ReadError::Refused(why)
    }
}

impl Reader {
    pub const MAX_WIDTH: usize = 2049;

    pub const MAX_HEIGHT: usize = 4294967295;

    // by the 5/3, and by the integer 9/7
    pub const MAX_LEVELS: usize = 5;

    pub const MAX_LEVELS_NINE_SEVEN: usize = 4;

    pub const MAX_ORIGIN: usize = 65535;

    // no line store needs more numbers
    pub const MAX_SPARE: usize = 131136;

    // A contract that names a constant follows an edit of it, so each is pinned to the definition's number.
    pub fn max_width() -> usize
        ensures { result ≡ max_width }
    {
        Reader::MAX_WIDTH
    }

    pub fn max_height() -> usize
        ensures { result ≡ max_height }
    {
        Reader::MAX_HEIGHT
    }

    pub fn max_levels() -> usize
        ensures { result ≡ max_levels }
    {
        Reader::MAX_LEVELS
    }

    // by the filter's number
    pub fn most_levels(filter: usize) -> usize
        ensures { result ≡ (filter_of filter).levels }
    {
        if filter == 0 {
            Reader::MAX_LEVELS
        } else {
            Reader::MAX_LEVELS_NINE_SEVEN
        }
    }

    pub fn max_origin() -> usize
        ensures { result ≡ max_origin }
    {
        Reader::MAX_ORIGIN
    }

    // A fresh reader; the needed part of the line store is zeroed. The questions are 2, 3, 18, 4 and 5.
    pub fn set_up(map: Shape, store: &mut [i32]) -> Result<Reader, Refusal>
        ensures answer { of_set_up result ≡
            set_up_reply map.filter (shape.columns map) (shape.rows map) map.levels
            (set_up_question map.filter (shape.columns map) (shape.rows map) map.levels (length store.old)) }
        ensures kept { at store.new ≡
            set_up_store map.filter (shape.columns map) map.levels
            (set_up_question map.filter (shape.columns map) (shape.rows map) map.levels (length store.old)) (at store.old) }
        ensures meaning { SetUpHolds (of_set_up result) (at store.new) }
    {
        questions::set_up_question(map, store.len())?;
        let x = map.x as usize;
        let y = map.y as usize;
        let filter = map.filter as usize;
        let n = filters::store_length(filter, map.width, x, map.levels);
        let _ = copies::clear(store, n);
        Ok(Reader::begun(0, filter, map.levels, x, map.width, y, map.height, 0, 0))
    }

    // The fresh reader of these columns and rows at so many levels.
    fn begun(
        admission: usize,
        filter: usize,
        levels: usize,
        x: usize,
        width: usize,
        y: usize,
        height: usize,
        stop: usize,
        spare: usize,
    ) -> Reader
        requires { Small (side x width) (side y height) 0 × (levels ≤ max_levels) }
        ensures { result ≡ fresh_by admission filter stop spare (side x width) (side y height) levels }
    {
        let v = Sides {
            x,
            width,
            y,
            height,
        };
        let p = places::descend_from(filter, levels, 0, v, 0, 0);
        let s = Reader {
            width,
            height,
            levels,
            x,
            y,
            drawn: 0,
            level: 0,
            back: 0,
            band: 0,
            ended: false,
            filter,
            stop,
            spare,
            admission,
        };
        s.moved(0, p)
    }

    // A fresh reader of the low-low part of level `stop`; the needed part of the line store, the whole map's, is zeroed. The questions are 2, 3, 18, 4, 17, 5.
    pub fn set_up_at(map: Shape, stop: usize, store: &mut [i32]) -> Result<Reader, Refusal>
        ensures answer { of_set_up result ≡
            stop_reply map.filter (shape.columns map) (shape.rows map) map.levels stop
            (stop_question map.filter (shape.columns map) (shape.rows map) map.levels stop (length store.old)) }
        ensures kept { at store.new ≡
            set_up_store map.filter (shape.columns map) map.levels
            (stop_question map.filter (shape.columns map) (shape.rows map) map.levels stop (length store.old)) (at store.old) }
    {
        questions::stop_question(map, stop, store.len())?;
        let x = map.x as usize;
        let y = map.y as usize;
        let filter = map.filter as usize;
        let n = filters::store_length(filter, map.width, x, map.levels);
        let _ = copies::clear(store, n);
        Ok(stops::reader_at(filter, map.levels, x, map.width, y, map.height, stop, n))
    }

    // A fresh tolerant reader, of the 5/3 from the origin on and without a stop: each value that it makes is limited to its level's range. The needed part of
    // the line store is zeroed. The questions are 2, 3, 4 and 5.
    pub fn set_up_tolerant(
        width: usize,
        height: usize,
        levels: usize,
        store: &mut [i32],
    ) -> Result<Reader, Refusal>
        ensures answer { of_set_up result ≡ tolerant_reply width height levels (tolerant_question width height levels (length store.old)) }
        ensures kept { at store.new ≡
            set_up_store 0 (side 0 width) levels (tolerant_question width height levels (length store.old)) (at store.old) }
        ensures meaning { SetUpHolds (of_set_up result) (at store.new) }
    {
        let map = Shape {
            width,
            height,
            levels,
            x: 0,
            y: 0,
            filter: 0,
        };
        questions::set_up_question(map, store.len())?;
        let n = filters::store_length(0, width, 0, levels);
        let _ = copies::clear(store, n);
        Ok(Reader::begun(1, 0, levels, 0, width, 0, height, 0, 0))
    }

    // The band row wanted, or Draw, Done or Ended. Question 1 is asked.
    pub fn want(self) -> Result<Wanted, Refusal>
        ensures answer { of_wanted result ≡ all.want_reply self (all.want_question self) }
    {
        if self.levels == 0 {
            return last::want(self);
        }
        self.want_row()
    }

    // The same with levels to work out.
    fn want_row(self) -> Result<Wanted, Refusal>
        ensures answer { of_wanted result ≡ want_reply self (want_question self) }
    {
        if !questions::counts_fit(self) {
            return Err(Refusal::BadState);
        }
        if self.ended {
            return Ok(Wanted::Ended);
        }
        if self.height <= self.drawn {
            return Ok(Wanted::Done);
        }
        if self.level == 0 {
            return Ok(Wanted::Draw);
        }
        let l = steps::own_level(self);
        let c = steps::own_band(self, l);
        if c < 4 {
            return self.want_for(Next {
                spot: Spot {
                    level: self.level,
                    set: l.set,
                    band: c,
                },
                at: l,
            });
        }
        self.want_for(walk::next_up(
            self.filter,
            self.x,
            self.width,
            self.y,
            self.height,
            self.levels,
            self.drawn,
            self.level,
            l,
            self.band,
        ))
    }

    // What is wanted, n being the row wanted if there is one.
    fn want_for(self, n: Next) -> Result<Wanted, Refusal>
        requires { Due self n × (self.ended ≡ false) × (self.drawn < self.height) × Counts self }
        ensures { of_wanted result ≡ gives (wants self) }
    {
        let level = self.stop + n.spot.level;
        if n.spot.level == 0 {
            return Ok(Wanted::Draw);
        }
        Ok(Wanted::Row {
            level,
            band: n.spot.band,
            row: steps::row_number(self, n),
            length: steps::row_length(self, n),
        })
    }

    // The row wanted is fed. The questions are 1, 5, 9, 8, 13, 7 and 14.
    pub fn feed(self, store: &mut [i32], run: &[i32]) -> Result<Reader, ReadError>
        ensures answer { of_fed result ≡
            all.feed_reply self
            (all.feed_question self (length store.old) (at store.old) (length run.now) (at run.now)) }
        ensures kept { at store.new ≡
            all.feed_store self
            (all.feed_question self (length store.old) (at store.old) (length run.now) (at run.now))
            (at run.now) (at store.old) }
    {
        if self.levels == 0 {
            return last::feed(self, store, run);
        }
        self.feed_set(store, run)
    }

    // The same with levels to work out: a row of a set.
    fn feed_set(self, store: &mut [i32], run: &[i32]) -> Result<Reader, ReadError>
        ensures answer { of_fed result ≡
            feed_reply self
            (feed_question self (length store.old) (at store.old) (length run.now) (at run.now)) }
        ensures kept { at store.new ≡
            feed_store self
            (feed_question self (length store.old) (at store.old) (length run.now) (at run.now))
            (at run.now) (at store.old) }
        ensures meaning { FeedKeeps self (at run.now) (at store.old) (of_fed result) (at store.new) }
    {
        if !questions::counts_fit(self) {
            return Err(ReadError::Refused(Refusal::BadState));
        }
        questions::store_question(self, store.len())?;
        let next = steps::next_of(self);
        questions::row_question(self, next, run)?;
        let complete = steps::completes(self, next);
        if steps::feed_row(self, store, next, complete, run) {
            return Ok(self.moved(self.drawn, steps::spot_fed(self, next, complete)));
        }
        Err(ReadError::Impossible(self.ending(store)))
    }

    // A height row is drawn, if one can be. The questions are 1, 5, 9 and, with a row to give, 12 and 14.
    pub fn draw(
        self,
        store: &mut [i32],
        out: &mut [u16],
    ) -> Result<Option<(usize, Reader)>, ReadError>
        ensures answer { of_drawn result ≡
            all.draw_reply self (all.draw_question self (length store.old) (at store.old) (length out.old)) }
        ensures kept { at store.new ≡
            all.draw_store self (all.draw_question self (length store.old) (at store.old) (length out.old))
            (at store.old) }
        ensures heights { heights_at out.new ≡
            all.draw_area self (all.draw_question self (length store.old) (at store.old) (length out.old))
            (at store.old) (heights_at out.old) }
    {
        if self.levels == 0 {
            return last::draw(self, store, out);
        }
        self.draw_row(store, out)
    }

    // The same with levels to work out.
    fn draw_row(
        self,
        store: &mut [i32],
        out: &mut [u16],
    ) -> Result<Option<(usize, Reader)>, ReadError>
        ensures answer { of_drawn result ≡
            draw_reply self (draw_question self (length store.old) (at store.old) (length out.old)) }
        ensures kept { at store.new ≡
            draw_store self (draw_question self (length store.old) (at store.old) (length out.old))
            (at store.old) }
        ensures heights { heights_at out.new ≡
            draw_area self (draw_question self (length store.old) (at store.old) (length out.old))
            (at store.old) (heights_at out.old) }
        ensures meaning { DrawKeeps self (at store.old) (of_drawn result) (at store.new) (heights_at out.new) }
    {
        if !questions::counts_fit(self) {
            return Err(ReadError::Refused(Refusal::BadState));
        }
        questions::store_question(self, store.len())?;
        if !questions::draw_due(self) {
            return Ok(None);
        }
        if out.len() < self.width {
            return Err(ReadError::Refused(Refusal::OutShort));
        }
        if steps::work_all_due(self, store) {
            return Ok(Some((self.width, self.hand_out(store, out))));
        }
        Err(ReadError::Impossible(self.ending(store)))
    }

    // The height row that stands in the store, drawn, and the reader then.
    fn hand_out(self, store: &[i32], out: &mut [u16]) -> Reader
        requires { Counts self × (self.drawn < self.height) × (store_by self.filter (columns self) self.levels ≤ length store.now) ×
            (self.width ≤ length out.old) }
        ensures value { result ≡ drawn_reader self }
        ensures out_after { heights_at out.new ≡
            fronted self.width (height_row self (at store.now)) (heights_at out.old) }
    {
        let w = self.width;
        let a = back::row_place(self.filter, w, self.y % 2 + self.drawn);
        let e = a + w;
        limited::draw_row(self.stop, &store[a..e], self.x, out);
        let d = self.drawn + 1;
        let v = Sides {
            x: self.x,
            width: w,
            y: self.y,
            height: self.height,
        };
        let p = places::descend_from(self.filter, self.levels, 0, v, d, d);
        self.moved(d, p)
    }

    // The reader at another place.
    fn moved(self, drawn: usize, p: Spot) -> Reader
        requires { Small (columns self) (rows self) drawn × (p.level ≤ max_levels) }
        ensures { result ≡ moved_to self drawn (place_of self.filter (rows self) drawn (spot p.level p.set p.band)) }
    {
        Reader {
            drawn,
            level: p.level,
            back: steps::back_of(self, drawn, p),
            band: p.band,
            ended: false,
            ..self
        }
    }

    // The reader ended by 14: the needed part of the line store is zeroed, its other numbers stay.
    pub fn ending(self, store: &mut [i32]) -> Reader
        requires { Counts self × (needs self ≤ length store.old) }
        ensures value { result ≡ ended_reader self }
        ensures store_after { at store.new ≡ zeroed (needs self) (at store.old) }
    {
        walk::zero(
            self.filter,
            self.x,
            self.width,
            self.levels,
            self.spare,
            store,
        );
        Reader {
            ended: true,
            ..self
        }
    }
}
