// What a row makes, down the levels. Each level works in its own stretch of the store; the rest of the store is lent on to the levels below.
// A level has w columns, the first at coordinate x; its rows start at coordinate y; `filter` is the number of the filter.
// The module is private: only this crate, which meets what is required, can call it.
ghost use Rattle.std.specs.Prelude.{◌≡◌, ◌+◌, ◌<◌, length};
ghost use Rattle.numbers.specs.Signal.{at};
ghost use Rattle.lifting.specs.Grid.{side};
ghost use Rattle.analysis.specs.Forward.{kind_of};
ghost use Rattle.writer.specs.Machine.{arrive, pass_on};
ghost use Rattle.writer.specs.Steps.{Left, Room};

use analysis::forward;
use progress::waits::Wait;
use progress::{counts, waits};
use wavelet::sizes;

// How many numbers the stretch of a level has. One product whatever the filter: question 1 stays small enough to be put into each call.
pub fn stretch(filter: usize, w: usize, x: usize) -> usize
    requires { w < 4294967296 }
    ensures { result ≡ (kind_of filter).stretch (side x w) }
{
    filters::rows_kept(filter) * w
}

// Row m of a level stands in its slot; the level and those below it are l.
pub fn arrive(
    filter: usize,
    store: &mut [i32],
    l: usize,
    w: usize,
    x: usize,
    y: usize,
    m: usize,
) -> Wait
    requires { Room filter l (side x w) m (length store.old) }
    ensures { Left filter l (side x w) (arrive (kind_of filter) l (side x w) y m (at store.old)) result (at store.new) }
{
    if !counts::makes_set(filter, l, y, m) {
        return waits::nothing();
    }
    let n = (y % 2 + m) / 2 - filters::look_ahead(filter);
    let _ = forward::make(filter, store, w, x, y, n);
    let i = counts::next_band(w, x, m + 1, y, n, counts::most(l - 1));
    if 0 < i {
        return Wait {
            level: 1,
            left: i,
            offset: 0,
        };
    }
    if !counts::gives_row(l - 1, y, n) {
        return waits::nothing();
    }
    let k = n - y % 2;
    let s = sizes::next_start(y);
    let _ = forward::deliver(filter, store, w, x, n, s % 2 + k);
    let a = stretch(filter, w, x);
    let r = arrive(
        filter,
        &mut store[a..],
        l - 1,
        sizes::low_count(x, w),
        sizes::next_start(x),
        s,
        k,
    );
    waits::seen_from(1, a, r)
}

// The LL row of set n, if it has one, goes to the l levels below.
pub fn pass_on(
    filter: usize,
    store: &mut [i32],
    l: usize,
    w: usize,
    x: usize,
    y: usize,
    n: usize,
) -> Wait
    requires { Room filter (l + 1) (side x w) n (length store.old) }
    ensures { Left filter (l + 1) (side x w) (pass_on (kind_of filter) l (side x w) y n (at store.old)) result (at store.new) }
{
    if !counts::gives_row(l, y, n) {
        return waits::nothing();
    }
    let k = n - y % 2;
    let s = sizes::next_start(y);
    let _ = forward::deliver(filter, store, w, x, n, s % 2 + k);
    let a = stretch(filter, w, x);
    let r = arrive(
        filter,
        &mut store[a..],
        l,
        sizes::low_count(x, w),
        sizes::next_start(x),
        s,
        k,
    );
    waits::seen_from(1, a, r)
}
