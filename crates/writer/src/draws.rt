// The row that waits, and the draw of it. The module is private: only this crate, which meets what is required, can call it.
ghost use Rattle.std.specs.Prelude.{◌≡◌, length};
ghost use Rattle.numbers.specs.Signal.{at};
ghost use Rattle.writer.specs.Questions.{waiting_row};
ghost use Rattle.writer.specs.Taking.{columns_of};
ghost use Rattle.writer.specs.Calls.{advanced, band_row};
ghost use Rattle.writer.specs.Steps.{Left, Walk, Placed, Reached, Found, Drawable};

use crate::{BandRow, Writer, cascade};
use analysis::forward;
use progress::levels::Level;
use progress::waits::Wait;
use progress::{counts, waits};

// A band row that waits, and where in the store its numbers begin.
// Stays: the band is a number, since the row's name has it as one, and `placed_of` gives its code.
#[derive(Clone, Copy)]
pub struct PlacedRow {
    pub level: usize,
    pub band: usize,
    pub row: usize,
    pub length: usize,
    pub start: usize,
}

// The row that waits, at level q.
pub fn waiting(s: Writer, q: Level) -> PlacedRow
    requires { Walk s.levels (columns_of s) s.level s.rows × Placed s × Reached s q }
    ensures { Found s.filter s.levels (columns_of s) (waiting_row s) result }
{
    let i = counts::minus(s.left, 1);
    let band = counts::code(i);
    PlacedRow {
        level: s.level,
        band,
        row: counts::set_row(q.rows, q.y, q.set, i),
        length: counts::columns(q.width, q.x, i),
        start: s.offset + forward::band_place(s.filter, q.width, q.x, q.set, band),
    }
}

// The same as a look tells it, without its place. A function of its own: either one is put into the call that has it, which one of both would not be.
pub fn looked(s: Writer, q: Level) -> BandRow
    requires { Walk s.levels (columns_of s) s.level s.rows × Placed s × Reached s q }
    ensures { result ≡ band_row (waiting_row s) }
{
    let i = counts::minus(s.left, 1);
    let band = counts::code(i);
    BandRow {
        level: s.level,
        band,
        row: counts::set_row(q.rows, q.y, q.set, i),
        length: counts::columns(q.width, q.x, i),
    }
}

// It is drawn: the next band of the set that has a row in it waits, or the set's LL row goes on.
pub fn advance(s: Writer, q: Level, store: &mut [i32]) -> Wait
    requires { Drawable s (length store.old) × Reached s q }
    ensures { Left s.filter s.levels (columns_of s) (advanced s (at store.old)) result (at store.new) }
{
    let i = counts::next_band(q.width, q.x, q.rows, q.y, q.set, counts::minus(s.left, 1));
    let a = s.offset;
    if 0 < i {
        return Wait {
            level: s.level,
            left: i,
            offset: a,
        };
    }
    let below = s.levels - s.level;
    let r = cascade::pass_on(s.filter, &mut store[a..], below, q.width, q.x, q.y, q.set);
    waits::seen_from(s.level - 1, a, r)
}
