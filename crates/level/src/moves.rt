// Rows moved within a store, whatever filter the level has. Each call is refused, with nothing changed, where a row does not lie in the store.
ghost use Rattle.std.specs.Prelude.{◌≡◌, ◌+◌, length, leb};
ghost use Rattle.numbers.specs.Signal.{at, pick, both, spliced};
ghost use Rattle.lifting.specs.Grid.{side};
ghost use Rattle.lifting.specs.GridHalves.{deinterleaved_into};
ghost use Rattle.lifting.specs.Rows.{rows_fit, rows_changed};
ghost use Rattle.lifting.specs.Pairs.{first};
ghost use Rattle.refusal.specs.Numbers.{answer};

use crate::{copies, heights};
use lifting::rows;
use refusal::Refusal;

// Row `from` of w numbers to row `to`.
pub fn copy_row(store: &mut [i32], w: usize, from: usize, to: usize) -> Result<(), Refusal>
    ensures value { answer result ≡ pick (rows_fit (length store.old) w w to from from) 0 5 }
    ensures store_after { at store.new ≡ rows_changed first (length store.old) w w to from from (at store.old) }
{
    if rows::rows_fit(store.len(), w, w, to, from, from) {
        copies::copy_row(store, w, from, to);
        return Ok(());
    }
    Err(Refusal::AreaShort)
}

// Whether v numbers from `from` on end before place `to`, and v from there on lie within n.
fn part_fits(n: usize, from: usize, to: usize, v: usize) -> bool
    ensures { result ≡ both (leb (from + v) to) (leb (to + v) n) }
{
    heights::lies_in(from, v, to) && heights::lies_in(to, v, n)
}

// The v numbers from place `from` on, a row that starts at coordinate `start`, deinterleaved into its halves from place `to` on, past what is read.
pub fn deinterleave_row(
    store: &mut [i32],
    from: usize,
    to: usize,
    start: usize,
    v: usize,
) -> Result<(), Refusal>
    ensures value { answer result ≡ pick (both (leb (from + v) to) (leb (to + v) (length store.old))) 0 5 }
    ensures store_after { at store.new ≡ pick (both (leb (from + v) to) (leb (to + v) (length store.old)))
        (spliced to v (deinterleaved_into (side start v) (λ i. at store.old (from + i)) (at store.old)) (at store.old))
        (at store.old) }
{
    if part_fits(store.len(), from, to, v) {
        copies::deinterleave_row(store, from, to, start, v);
        return Ok(());
    }
    Err(Refusal::AreaShort)
}
