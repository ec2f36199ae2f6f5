// A level's calls on the way forward, by the filter's number: 0 is the 5/3, any other the integer 9/7. The store begins with the level's stretch. Each call
// that changes it is refused, with nothing changed, where the stretch, or the next level's after it, does not lie in the store. w is how many columns the
// level has; its columns start at coordinate x and its rows at coordinate y, of which only the parity counts.
ghost use Rattle.std.specs.Prelude.{◌≡◌, ◌+◌, ◌<◌, length, ltb};
ghost use Rattle.numbers.specs.Signal.{at, pick};
ghost use Rattle.lifting.specs.Grid.{side};
ghost use Rattle.refusal.specs.Numbers.{answer};
ghost use Rattle.wavelet.specs.ViewCall.{named};
ghost use Rattle.filters.specs.Filters.{filter_of};
ghost use Rattle.level.specs.Heights.{height_at};
ghost use Rattle.level.specs.Stretch.{row_place};
ghost use Rattle.analysis.specs.Forward.{kind_of, level_fits, next_fits, countable, delivered, heights_put, heights_fit};

use crate::{sets, slots};
use level::{heights, moves};
use refusal::Refusal;
use wavelet::sizes;

// Whether the stretch of a level of w columns lies within n numbers, and whether the next level's does too: by division, so that no product can overflow.
fn level_fits(filter: usize, n: usize, w: usize) -> bool
    ensures { (x : _) → result ≡ level_fits filter n (side x w) }
{
    if filter == 0 {
        return w <= n / 4;
    }
    w <= n / 8
}

fn next_fits(filter: usize, n: usize, w: usize, x: usize) -> bool
    ensures { result ≡ next_fits filter n (side x w) }
{
    level_fits(filter, n, w) && level_fits(filter, n, w + sizes::low_count(x, w))
}

// Where the row at q begins; 0 where the stretch has more numbers than can be counted.
pub fn row_place(filter: usize, w: usize, q: usize) -> usize
    ensures { result ≡ pick (ltb w countable) (row_place (filter_of filter).rows w q) 0 }
{
    if w < 2305843009213693952 {
        return slots::slot(filter, q) * w;
    }
    0
}

// Heights into row q.
pub fn put(
    filter: usize,
    store: &mut [i32],
    w: usize,
    x: usize,
    q: usize,
    column: usize,
    run: &[u16],
    from: usize,
    n: usize,
) -> Result<(), Refusal>
    ensures value { answer result ≡ pick (heights_fit filter (length store.old) (side x w) column n (length run.now) from) 0 5 }
    ensures store_after { at store.new ≡ pick (heights_fit filter (length store.old) (side x w) column n (length run.now) from)
        (heights_put filter (side x w) q column n (λ j. height_at run.now (from + j)) (at store.old)) (at store.old) }
{
    if level_fits(filter, store.len(), w) {
        let a = slots::slot(filter, q) * w;
        let e = a + w;
        return heights::put(&mut store[a..e], x, column, run, from, n);
    }
    Err(Refusal::AreaShort)
}

// Set n is made, the row that completes it being there: a set is made of the rows at two coordinates, 2n and 2n + 1 past the last even one not after y.
pub fn make(
    filter: usize,
    store: &mut [i32],
    w: usize,
    x: usize,
    y: usize,
    n: usize,
) -> Result<(), Refusal>
    ensures value { answer result ≡ pick (level_fits filter (length store.old) (side x w)) 0 5 }
    ensures store_after { at store.new ≡ pick (level_fits filter (length store.old) (side x w))
        ((kind_of filter).make (side x w) y n (at store.old)) (at store.old) }
{
    if level_fits(filter, store.len(), w) {
        sets::make_next(store, filter, w, x, y, n);
        return Ok(());
    }
    Err(Refusal::AreaShort)
}

// Set n of m rows is made, all of them being there and the sets before it being made. A set that they do not have makes nothing.
pub fn close(
    filter: usize,
    store: &mut [i32],
    w: usize,
    x: usize,
    y: usize,
    m: usize,
    n: usize,
) -> Result<(), Refusal>
    ensures value { answer result ≡ pick (level_fits filter (length store.old) (side x w)) 0 5 }
    ensures store_after { at store.new ≡ pick (level_fits filter (length store.old) (side x w))
        ((kind_of filter).close (side x w) (side y m) n (at store.old)) (at store.old) }
{
    if level_fits(filter, store.len(), w) {
        sets::make_set(store, filter, w, x, y, m, n);
        return Ok(());
    }
    Err(Refusal::AreaShort)
}

// The LL row of set n, lifted along the row, becomes row q of the next level, whose stretch is the one after: the row at coordinate q past the last even one
// that is not after the next level's start.
pub fn deliver(
    filter: usize,
    store: &mut [i32],
    w: usize,
    x: usize,
    n: usize,
    q: usize,
) -> Result<(), Refusal>
    ensures value { answer result ≡ pick (next_fits filter (length store.old) (side x w)) 0 5 }
    ensures store_after { at store.new ≡ pick (next_fits filter (length store.old) (side x w))
        (delivered filter (side x w) n q (at store.old)) (at store.old) }
{
    if next_fits(filter, store.len(), w, x) {
        let v = sizes::low_count(x, w);
        let from = slots::low_waits(filter, n) * w;
        let to = filters::rows_kept(filter) * w + slots::slot(filter, q) * v;
        return moves::deinterleave_row(store, from, to, sizes::next_start(x), v);
    }
    Err(Refusal::AreaShort)
}

// Where the row of a band, told by its code, waits that set n has; 0 where the code names no band.
fn placed(filter: usize, w: usize, x: usize, n: usize, band: usize) -> usize
    requires { w < countable }
    ensures { result ≡ named band ((kind_of filter).place (side x w) 0 n) 0 }
{
    match band {
        0 => slots::low_waits(filter, n) * w,
        1 => slots::low_waits(filter, n) * w + sizes::low_count(x, w),
        2 => slots::high_waits(filter, n) * w,
        3 => slots::high_waits(filter, n) * w + sizes::low_count(x, w),
        _ => 0,
    }
}

// The same, and 0 where the stretch cannot be counted.
pub fn band_place(filter: usize, w: usize, x: usize, n: usize, band: usize) -> usize
    ensures { result ≡ pick (ltb w countable) (named band ((kind_of filter).place (side x w) 0 n) 0) 0 }
{
    if w < 2305843009213693952 {
        return placed(filter, w, x, n, band);
    }
    0
}
