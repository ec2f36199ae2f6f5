// What a draw leaves. The module is private: only this crate, which meets what is required, can call it.
ghost use Rattle.std.specs.Prelude.{length};
ghost use Rattle.numbers.specs.Signal.{at};
ghost use Rattle.writer.specs.Steps.{Drawable, Reached, Drew, Spares, DrewOn};

use crate::{Writer, closing, draws, spare};
use progress::levels::Level;

// The row that waits is drawn; once finished and nothing waits, the levels close on.
pub fn draw_and_close(s: Writer, from: Level, store: &mut [i32]) -> Writer
    requires { Drawable s (length store.old) × Reached s from }
    ensures { Drew s (at store.old) result (at store.new) }
{
    let r = draws::advance(s, from, store);
    if s.finished && r.level == 0 {
        let q = closing::flush(
            s.filter, store, s.levels, s.width, s.x, s.y, s.closed, s.rows,
        );
        return Writer {
            closed: q.closed,
            level: q.wait.level,
            left: q.wait.left,
            offset: q.wait.offset,
            ..s
        };
    }
    Writer {
        level: r.level,
        left: r.left,
        offset: r.offset,
        ..s
    }
}

// The row that waits is drawn; once nothing waits, the heights of the spare row go on.
pub fn draw_and_move(s: Writer, from: Level, store: &mut [i32]) -> Writer
    requires { Drawable s (length store.old) × Reached s from × Spares s (length store.old) }
    ensures { DrewOn s (at store.old) result (at store.new) }
{
    let t = draw_and_close(s, from, store);
    if t.level == 0 && 0 < t.column {
        return spare::move_on(t, store);
    }
    t
}
