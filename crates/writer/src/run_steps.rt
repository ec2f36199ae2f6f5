// The steps of an offer and of a draw that a run takes, the same as `offers::put_heights` and `after::draw_and_move` but for the module that they stand in. A
// compiler puts a step into the one call that has it and leaves one that two calls share a function of its own. The module is private, as theirs are.
// Stays: shared, with a hint that inlines them in both, they cost single calls 6 % and a run 9 % at 17 columns: 189.8 instructions a height for 178.4, and
// 119.2 for 109.1.
ghost use Rattle.std.specs.Prelude.{◌+◌, ◌<◌, ◌≤◌, length};
ghost use Rattle.numbers.specs.Signal.{at};
ghost use Rattle.wavelet.specs.Limits.{max_height};
ghost use Rattle.writer.specs.Taking.{columns_of};
ghost use Rattle.writer.specs.Calls.{advanced};
ghost use Rattle.writer.specs.OfferSteps.{Taker, HeightsTaken};
ghost use Rattle.writer.specs.Steps.{Left, Drawable, Reached, Drew, Spares, DrewOn};

use crate::{Writer, cascade, closing, offers, spare};
use analysis::forward;
use progress::levels::Level;
use progress::waits::Wait;
use progress::{counts, waits};

// The row that waits is drawn: the next band of the set that has a row in it waits, or the set's LL row goes on.
fn advance(s: Writer, q: Level, store: &mut [i32]) -> Wait
    requires { Drawable s (length store.old) × Reached s q }
    ensures { Left s.filter s.levels (columns_of s) (advanced s (at store.old)) result (at store.new) }
{
    let i = counts::next_band(q.width, q.x, q.rows, q.y, q.set, counts::minus(s.left, 1));
    let a = s.offset;
    if 0 < i {
        return Wait {
            level: s.level,
            left: i,
            offset: a,
        };
    }
    let below = s.levels - s.level;
    let r = cascade::pass_on(s.filter, &mut store[a..], below, q.width, q.x, q.y, q.set);
    waits::seen_from(s.level - 1, a, r)
}

// Once finished and nothing waits, the levels close on.
fn draw_and_close(s: Writer, from: Level, store: &mut [i32]) -> Writer
    requires { Drawable s (length store.old) × Reached s from }
    ensures { Drew s (at store.old) result (at store.new) }
{
    let r = advance(s, from, store);
    if s.finished {
        if r.level == 0 {
            let q = closing::flush(
                s.filter, store, s.levels, s.width, s.x, s.y, s.closed, s.rows,
            );
            return Writer {
                closed: q.closed,
                level: q.wait.level,
                left: q.wait.left,
                offset: q.wait.offset,
                ..s
            };
        }
    }
    Writer {
        level: r.level,
        left: r.left,
        offset: r.offset,
        ..s
    }
}

// Once nothing waits, the heights of the spare row go on.
pub fn draw_and_move(s: Writer, from: Level, store: &mut [i32]) -> Writer
    requires { Drawable s (length store.old) × Reached s from × Spares s (length store.old) }
    ensures { DrewOn s (at store.old) result (at store.new) }
{
    let t = draw_and_close(s, from, store);
    if t.level == 0 {
        if 0 < t.column {
            return spare::move_on(t, store);
        }
    }
    t
}

// A stretch of n heights of a run, from height `from` on; where it completes the row, what that makes.
pub fn put_heights(s: Writer, store: &mut [i32], run: &[u16], from: usize, n: usize) -> Writer
    requires { Taker s (length store.old) × (s.rows < max_height) × (s.column + n ≤ s.width) × (from + n ≤ length run.now) }
    ensures { HeightsTaken s run.now from n (at store.old) result (at store.new) (length store.old) }
{
    let q = s.y % 2 + s.rows;
    let _ = forward::put(s.filter, store, s.width, s.x, q, s.column, run, from, n);
    offers::reach(s, store, s.column + n)
}
