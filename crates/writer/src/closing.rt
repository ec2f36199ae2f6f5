// The finish: the levels close in turn, each step once nothing waits at any level.
// A level has w columns, the first at coordinate x, and m rows, the first at coordinate y; `filter` is the number of the filter.
// The module is private: only this crate, which meets what is required, can call it.
ghost use Rattle.std.specs.Prelude.{◌≤◌, ◌+◌, ◌-◌, ◌*◌, length};
ghost use Rattle.numbers.specs.Signal.{at};
ghost use Rattle.lifting.specs.Grid.{side};
ghost use Rattle.filters.specs.Filters.{filter_of};
ghost use Rattle.analysis.specs.Forward.{kind_of};
ghost use Rattle.writer.specs.Closing.{close_step, close_level, flush};
ghost use Rattle.writer.specs.Steps.{Room, Left, LevelClosed, Closed};

use crate::cascade;
use analysis::forward;
use progress::waits::Wait;
use progress::{counts, waits};
use wavelet::sizes;

// How many steps are done, and what waits.
#[derive(Clone, Copy)]
pub struct Closure {
    pub closed: usize,
    pub wait: Wait,
}

// Step c of the level: its first set that is not made is made, if one is left; l levels are below.
fn close_step(
    filter: usize,
    store: &mut [i32],
    l: usize,
    w: usize,
    x: usize,
    y: usize,
    c: usize,
    m: usize,
) -> Wait
    requires { Room filter (l + 1) (side x w) m (length store.old) }
    ensures { Left filter (l + 1) (side x w) (close_step (kind_of filter) l (side x w) y c m (at store.old)) result (at store.new) }
{
    let n = counts::made(filter, c, y, m);
    if !counts::is_left(y, m, n) {
        return waits::nothing();
    }
    let _ = forward::close(filter, store, w, x, y, m, n);
    let i = counts::next_band(w, x, m, y, n, counts::most(l));
    if 0 < i {
        return Wait {
            level: 1,
            left: i,
            offset: 0,
        };
    }
    cascade::pass_on(filter, store, l, w, x, y, n)
}

// The steps of the level from step c on, until a row waits.
fn close_level(
    filter: usize,
    store: &mut [i32],
    l: usize,
    w: usize,
    x: usize,
    y: usize,
    c: usize,
    m: usize,
) -> Closure
    requires { Room filter (l + 1) (side x w) m (length store.old) }
    ensures { LevelClosed filter (l + 1) (side x w)
        (close_level (kind_of filter) ((filter_of filter).ahead - c) l (side x w) y c m (at store.old)) result
        (at store.new) }
{
    let a = filters::look_ahead(filter);
    for k in c..a {
        let o = close_step(filter, store, l, w, x, y, k, m);
        if 0 < o.level {
            return Closure {
                closed: k + 1,
                wait: o,
            };
        }
    }
    Closure {
        closed: c.max(a),
        wait: waits::nothing(),
    }
}

// The l levels close, c steps being done, until a row waits.
pub fn flush(
    filter: usize,
    store: &mut [i32],
    l: usize,
    w: usize,
    x: usize,
    y: usize,
    c: usize,
    m: usize,
) -> Closure
    requires { Room filter l (side x w) m (length store.old) × (c ≤ (filter_of filter).ahead * l) }
    ensures { Closed filter l (side x w) (flush (kind_of filter) l (side x w) y c m (at store.old)) result (at store.new) }
{
    if l == 0 {
        return Closure {
            closed: c,
            wait: waits::nothing(),
        };
    }
    let o = close_level(filter, store, l - 1, w, x, y, c, m);
    if 0 < o.wait.level {
        return o;
    }
    let a = cascade::stretch(filter, w, x);
    let ahead = filters::look_ahead(filter);
    let r = flush(
        filter,
        &mut store[a..],
        l - 1,
        sizes::low_count(x, w),
        sizes::next_start(x),
        sizes::next_start(y),
        counts::minus(c, ahead),
        sizes::low_count(y, m),
    );
    Closure {
        closed: ahead + r.closed,
        wait: waits::seen_from(1, a, r.wait),
    }
}
