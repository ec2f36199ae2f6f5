// Heights into level 1, a stretch of a row at a time. The module is private: only this crate, which meets what is required, can call it.
ghost use Rattle.std.specs.Prelude.{◌≡◌, ◌+◌, ◌<◌, ◌≤◌, ◌-◌, min, length};
ghost use Rattle.numbers.specs.Signal.{at};
ghost use Rattle.wavelet.specs.Limits.{max_height};
ghost use Rattle.writer.specs.OfferSteps.{next_count, Roomy, Taker, Reaching, HeightsTaken};

use crate::{Writer, cascade};
use analysis::forward;

// How many heights the first stretch of an offer has, of k: to the end of the row at most.
pub fn first(s: Writer, k: usize) -> usize
    requires { s.column < s.width }
    ensures { result ≡ min (s.width - s.column) k }
{
    let n = s.width - s.column;
    if n < k {
        return n;
    }
    k
}

// How many heights the next stretch has, of k that are left.
pub fn next(s: Writer, k: usize) -> usize
    requires { s.column < s.width }
    ensures { result ≡ next_count s k }
{
    if k == 0 {
        return 0;
    }
    if 0 < s.level {
        return 0;
    }
    if Writer::MAX_HEIGHT <= s.rows {
        return 0;
    }
    let n = s.width - s.column;
    if n < k {
        return n;
    }
    k
}

// The first `column` heights of the row begun stand in their places; where they complete the row, what that makes.
pub fn reach(s: Writer, store: &mut [i32], column: usize) -> Writer
    requires { Roomy s (length store.old) × (s.rows < max_height) × (column ≤ s.width) }
    ensures { Reaching s column (at store.old) result (at store.new) (length store.old) }
{
    if column < s.width {
        return Writer { column, ..s };
    }
    let r = cascade::arrive(s.filter, store, s.levels, s.width, s.x, s.y, s.rows);
    Writer {
        rows: s.rows + 1,
        column: 0,
        level: r.level,
        left: r.left,
        offset: r.offset,
        ..s
    }
}

// A stretch of n heights of a run, from height `from` on; where it completes the row, what that makes.
pub fn put_heights(s: Writer, store: &mut [i32], run: &[u16], from: usize, n: usize) -> Writer
    requires { Taker s (length store.old) × (s.rows < max_height) × (s.column + n ≤ s.width) × (from + n ≤ length run.now) }
    ensures { HeightsTaken s run.now from n (at store.old) result (at store.new) (length store.old) }
{
    let q = s.y % 2 + s.rows;
    let _ = forward::put(s.filter, store, s.width, s.x, q, s.column, run, from, n);
    reach(s, store, s.column + n)
}
