// The spare row: the heights that are offered while band rows wait, right after the levels' stretches. Document 02, Q-2. While rows wait, `column` counts them.
// The module is private: only this crate, which meets what is required, can call it.
ghost use Rattle.std.specs.Prelude.{◌≡◌, ◌+◌, ◌-◌, ◌*◌, ◌%◌, ◌<◌, ◌≤◌, min, length};
ghost use Rattle.numbers.specs.Signal.{at, spliced};
ghost use Rattle.lifting.specs.Grid.{side};
ghost use Rattle.wavelet.specs.Limits.{max_height};
ghost use Rattle.level.specs.Heights.{height_at};
ghost use Rattle.analysis.specs.Forward.{heights_put};
ghost use Rattle.writer.specs.Taking.{at_column};
ghost use Rattle.writer.specs.Spare.{spare_at};
ghost use Rattle.writer.specs.SpareSteps.{Holder, Mover, Moved, separated, first_place};

use crate::{Writer, offers};
use wavelet::sizes;

// How many heights of k the spare row takes: to its end at most.
pub fn room(s: Writer, k: usize) -> usize
    requires { s.column ≤ s.width }
    ensures { result ≡ min (s.width - s.column) k }
{
    let n = s.width - s.column;
    if n < k {
        return n;
    }
    k
}

// The first n heights of a run to the places from `to` on.
fn copy(store: &mut [i32], to: usize, run: &[u16], n: usize)
    requires { (to + n ≤ length store.old) × (n ≤ length run.now) }
    ensures { at store.new ≡ spliced to n (height_at run.now) (at store.old) }
{
    for j in 0..n {
        store[to + j] = run[j] as i32;
    }
}

// The first n heights of a run into the spare row, after those that stand there.
pub fn hold(s: Writer, store: &mut [i32], run: &[u16], n: usize) -> Writer
    requires { Holder s n (length store.old) × (n ≤ length run.now) }
    ensures value { result ≡ at_column s (s.column + n) }
    ensures store_after { at store.new ≡ spliced (spare_at s + s.column) n (height_at run.now) (at store.old) }
{
    let a = filters::store_length(s.filter, s.width, s.x, s.levels);
    copy(store, a + s.column, run, n);
    Writer {
        column: s.column + n,
        ..s
    }
}

// `count` pairs of numbers from `from` on: the first of each to the places from `firsts` on, the second to those from `seconds` on, before what is read.
// One loop stores both: the compiler then reads whole vectors.
fn separate(store: &mut [i32], from: usize, firsts: usize, seconds: usize, count: usize)
    requires { (firsts + count ≤ from) × (seconds + count ≤ from) × (from + 2 * count ≤ length store.old) }
    ensures { at store.new ≡ separated from firsts seconds count (at store.old) }
{
    for j in 0..count {
        store[firsts + j] = store[from + 2 * j];
        store[seconds + j] = store[from + 2 * j + 1];
    }
}

// Where the first number of a row stands whose columns start at x, `low` of them even.
fn first_place(x: usize, low: usize) -> usize
    ensures { result ≡ first_place x low }
{
    if x % 2 == 0 { 0 } else { low }
}

// The n numbers from place `from` on, past level 1's stretch, into its row q, from the first column on: pairs, and the last by itself where n is odd.
fn put(filter: usize, store: &mut [i32], w: usize, x: usize, q: usize, from: usize, n: usize)
    requires { Mover filter w from n (length store.old) }
    ensures { at store.new ≡
        heights_put filter (side x w) q 0 n (λ j. at store.old (from + j)) (at store.old) }
{
    let low = sizes::low_count(x, w);
    let a = q % filters::rows_kept(filter) * w;
    let o = first_place(x, low);
    let pairs = n / 2;
    separate(store, from, a + o, a + (low - o), pairs);
    if 2 * pairs < n {
        store[a + o + pairs] = store[from + 2 * pairs];
    }
}

// Nothing waits: the heights of the spare row go on, as the first of the row begun; where they complete it, what that makes.
pub fn move_on(s: Writer, store: &mut [i32]) -> Writer
    requires { Holder s 0 (length store.old) × (s.rows < max_height) }
    ensures { Moved s (at store.old) result (at store.new) }
{
    let a = filters::store_length(s.filter, s.width, s.x, s.levels);
    let q = s.y % 2 + s.rows;
    put(s.filter, store, s.width, s.x, q, a, s.column);
    offers::reach(s, store, s.column)
}
