// The copies within a store, one pass over the numbers each. The module is private: only this crate, which meets what is required, can call it.
ghost use Rattle.std.specs.Prelude.{◌≡◌, ◌≤◌, ◌+◌, ◌-◌, ◌*◌, ◌%◌, length, eqb};
ghost use Rattle.numbers.specs.Signal.{at, pick, spliced};
ghost use Rattle.lifting.specs.Grid.{side, count};
ghost use Rattle.lifting.specs.GridHalves.{deinterleaved_into};
ghost use Rattle.lifting.specs.Rows.{row_changed};
ghost use Rattle.lifting.specs.Pairs.{first};
ghost use Rattle.level.specs.Moves.{separated};

use wavelet::sizes;

// `count` pairs of numbers from `from` on: the first of each to the places from `firsts` on, the second to those from `seconds` on, past what is read.
// One loop stores both: the compiler then reads whole vectors.
fn separate(store: &mut [i32], from: usize, firsts: usize, seconds: usize, count: usize)
    requires { (from + 2 * count ≤ firsts) × (from + 2 * count ≤ seconds) × (count ≤ (seconds - firsts) + (firsts - seconds))
        × (firsts + count ≤ length store.old) × (seconds + count ≤ length store.old) }
    ensures { at store.new ≡ separated from firsts seconds count (at store.old) }
{
    for j in 0..count {
        store[firsts + j] = store[from + 2 * j];
        store[seconds + j] = store[from + 2 * j + 1];
    }
}

// Where the first number of a row goes that is deinterleaved into its halves, `low` of it low: a row that starts at an odd coordinate begins with a high one.
fn first_place(start: usize, low: usize) -> usize
    ensures { result ≡ pick (eqb (start % 2) 0) 0 low }
{
    if start % 2 == 0 { 0 } else { low }
}

// The v numbers from `from` on, a row that starts at coordinate `start`, deinterleaved into its halves from place `to` on, past what is read: pairs, and the
// last by itself where v is odd.
pub fn deinterleave_row(store: &mut [i32], from: usize, to: usize, start: usize, v: usize)
    requires { (from + v ≤ to) × (to + v ≤ length store.old) }
    ensures { at store.new ≡
        spliced to v (deinterleaved_into (side start v) (λ i. at store.old (from + i)) (at store.old)) (at store.old) }
{
    let low = sizes::low_count(start, v);
    let o = first_place(start, low);
    let pairs = v / 2;
    separate(store, from, to + o, to + (low - o), pairs);
    if 2 * pairs < v {
        store[to + o + pairs] = store[from + 2 * pairs];
    }
}

// Row `from` of w numbers to row `to`.
pub fn copy_row(store: &mut [i32], w: usize, from: usize, to: usize)
    requires { (to * w + w ≤ length store.old) × (from * w + w ≤ length store.old) }
    ensures { at store.new ≡ row_changed first w w to from from (at store.old) }
{
    let t = to * w;
    let f = from * w;
    for i in 0..w {
        store[t + i] = store[f + i];
    }
}
