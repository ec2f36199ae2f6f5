// Line calls: a whole line lifted, in place in halves, or from one area to another. A line starts at a coordinate of the grid, any number: only whether it is
// odd counts.
ghost use Rattle.std.specs.Prelude.{◌≡◌, ◌+◌, ◌-◌, ◌*◌, ◌%◌, ◌<◌, ◌≤◌, length, set, leb, eqb};
ghost use Rattle.numbers.specs.Signal.{at, pick, both};
ghost use Rattle.numbers.specs.Word.{wrap32};
ghost use Rattle.refusal.specs.Numbers.{answer};
ghost use Rattle.lifting.specs.Line.{lo, unpredicted, unupdated};
ghost use Rattle.lifting.specs.Grid.{side, count};
ghost use Rattle.lifting.specs.GridHalves.{lifted_in_place, unlifted_in_place, has_line_in, forward_into, backward_into};
ghost use Rattle.lifting.specs.Passes.{evens_copied, even_back, rest_put};

use crate::step::{Predict, Unpredict, Unupdate, Update};
use crate::{passes, place, sample, single};
use refusal::Refusal;

// ---- a line in halves, in place

// A line of one number or none: an only number at an odd coordinate is doubled.
fn lift_single(line: &mut [i32], start: usize)
    requires { length line.old < 2 }
    ensures { at line.new ≡ lifted_in_place (side start (length line.old)) (at line.old) }
{
    if single::is_single(line.len(), start) {
        line[0] = sample::double(line[0]);
    }
}

// The way back: it is halved, and an odd one is refused.
fn unlift_single(line: &mut [i32], start: usize) -> Result<(), Refusal>
    requires { length line.old < 2 }
    ensures value { answer result ≡ pick (has_line_in (side start (length line.old)) (at line.old)) 0 14 }
    ensures line_after { at line.new ≡ pick (has_line_in (side start (length line.old)) (at line.old))
        (unlifted_in_place (side start (length line.old)) (at line.old)) (at line.old) }
{
    if single::is_single(line.len(), start) {
        line[0] = sample::half(line[0])?;
    }
    Ok(())
}

// A line in halves lifted in place: the low values first, then the high ones.
pub fn lift(line: &mut [i32], start: usize)
    ensures { at line.new ≡ lifted_in_place (side start (length line.old)) (at line.old) }
{
    let n = line.len();
    if n < 2 {
        lift_single(line, start);
        return;
    }
    let b = start % 2;
    let low = place::lows(n, start);
    passes::change_highs::<Predict>(line, low, 1 - b);
    passes::change_lows::<Update>(line, low, b);
}

// The way back: low and high values in place to the line in halves. No map, and nothing changed, for an only high value that is odd.
pub fn unlift(line: &mut [i32], start: usize) -> Result<(), Refusal>
    ensures value { answer result ≡ pick (has_line_in (side start (length line.old)) (at line.old)) 0 14 }
    ensures line_after { at line.new ≡ pick (has_line_in (side start (length line.old)) (at line.old))
        (unlifted_in_place (side start (length line.old)) (at line.old)) (at line.old) }
{
    let n = line.len();
    if n < 2 {
        return unlift_single(line, start);
    }
    let b = start % 2;
    let low = place::lows(n, start);
    passes::change_lows::<Unupdate>(line, low, b);
    passes::change_highs::<Unpredict>(line, low, 1 - b);
    Ok(())
}

// ---- from one area to another

// The even places of a line to the front of `out`.
fn copy_evens(line: &[i32], out: &mut [i32])
    requires { length line.now ≤ length out.old + length out.old }
    ensures { at out.new ≡ evens_copied (length line.now) (at line.now) (at out.old) }
{
    let n = line.len();
    let low = n - n / 2;
    for j in 0..low {
        out[j] = line[2 * j];
    }
}

// A line's low values, then its high values, at the front of `out`: its places deinterleaved, and lifted there.
// Refused, and nothing changed, where `out` is shorter than the line.
pub fn forward(line: &[i32], start: usize, out: &mut [i32]) -> Result<(), Refusal>
    ensures value { answer result ≡ pick (leb (length line.now) (length out.old)) 0 5 }
    ensures out_after { at out.new ≡ pick (leb (length line.now) (length out.old))
        (forward_into (side start (length line.now)) (at line.now) (at out.old)) (at out.old) }
{
    let n = line.len();
    if out.len() < n {
        return Err(Refusal::AreaShort);
    }
    if 0 < n {
        let b = start % 2;
        let low = place::lows(n, start);
        copy_evens(&line[b..n], &mut out[0..low]);
        copy_evens(&line[1 - b..n], &mut out[low..n]);
        lift(&mut out[0..n], start);
    }
    Ok(())
}

// The place of a line that has the low value n, its high neighbours at places a and b.
fn even_of(coefficients: &[i32], n: usize, a: usize, b: usize) -> i32
    requires { (n < length coefficients.now) × (a < length coefficients.now) × (b < length coefficients.now) }
    ensures { result ≡ unupdated wrap32 (at coefficients.now n) (at coefficients.now a) (at coefficients.now b) }
{
    sample::unupdate(coefficients[n], coefficients[a], coefficients[b])
}

// Places q and q + 1 of a line: one at an even coordinate, and the high value at place p with that and the next such.
fn put_pair(coefficients: &[i32], out: &mut [i32], p: usize, q: usize, even: i32, next: i32)
    requires { (p < length coefficients.now) × (q + 1 < length out.old) }
    ensures { out.new ≡ set (set out.old q even) (q + 1) (unpredicted wrap32 (at coefficients.now p) even next) }
{
    out[q] = even;
    out[q + 1] = sample::unpredict(coefficients[p], even, next);
}

// Place 0 where it is high: it has one neighbour.
fn put_first(coefficients: &[i32], out: &mut [i32], low: usize, b: usize, even: i32)
    requires { (low < length coefficients.now) × (0 < length out.old) }
    ensures { out.new ≡ pick (eqb b 1) (set out.old 0 (unpredicted wrap32 (at coefficients.now low) even even))
        out.old }
{
    if b == 1 {
        out[0] = sample::unpredict(coefficients[low], even, even);
    }
}

// The end of a line, from the place of low value n on: that place, the high one after it and the last low one, where they are.
fn put_end(coefficients: &[i32], out: &mut [i32], low: usize, start: usize, n: usize, even: i32)
    requires { (low ≡ count lo (side start (length coefficients.now))) × (1 < length coefficients.now) × (length coefficients.now ≤ length out.old) ×
        (n < low) × (length coefficients.now ≤ low + n + start % 2 + 1) ×
        (even ≡ even_back (side start (length coefficients.now)) (at coefficients.now) n) }
    ensures { at out.new ≡ rest_put (side start (length coefficients.now)) (2 * n + start % 2) (at coefficients.now)
        (at out.old) }
{
    let b = start % 2;
    let q = 2 * n + b;
    let p = low + n + b;
    if coefficients.len() <= p {
        out[q] = even;
        return;
    }
    if low <= n + 1 {
        put_pair(coefficients, out, p, q, even, even);
        return;
    }
    let last = even_of(coefficients, n + 1, p, p);
    put_pair(coefficients, out, p, q, even, last);
    out[q + 2] = last;
}

// A line of more than one number, two places a turn: an even coordinate is worked out once and carried to the next turn. The ends stand outside the loop.
fn put_line(coefficients: &[i32], out: &mut [i32], low: usize, start: usize)
    requires { (low ≡ count lo (side start (length coefficients.now))) × (1 < length coefficients.now)
        × (length coefficients.now ≤ length out.old) }
    ensures { at out.new ≡ backward_into (side start (length coefficients.now)) (at coefficients.now)
        (at out.old) }
{
    let b = start % 2;
    let high = coefficients.len() - low;
    let mut even = even_of(coefficients, 0, low, low + place::nearest(high, b));
    put_first(coefficients, out, low, b, even);
    let from = low + b;
    let end = high - b;
    let turns = end.saturating_sub(1);
    for n in 0..turns {
        let next = even_of(coefficients, n + 1, from + n, from + n + 1);
        put_pair(coefficients, out, from + n, 2 * n + b, even, next);
        even = next;
    }
    put_end(coefficients, out, low, start, turns, even);
}

// A line of one number or none: an only high value is halved, and an odd one is refused.
fn put_single(coefficients: &[i32], start: usize, out: &mut [i32]) -> Result<(), Refusal>
    requires { (length coefficients.now < 2) × (length coefficients.now ≤ length out.old) }
    ensures value { answer result ≡ pick (has_line_in (side start (length coefficients.now)) (at coefficients.now)) 0 14 }
    ensures out_after { at out.new ≡ pick (has_line_in (side start (length coefficients.now)) (at coefficients.now))
        (backward_into (side start (length coefficients.now)) (at coefficients.now) (at out.old)) (at out.old) }
{
    if single::is_single(coefficients.len(), start) {
        out[0] = sample::half(coefficients[0])?;
        return Ok(());
    }
    copy_evens(coefficients, out);
    Ok(())
}

// Low values, then high values, to the line that has them, at the front of `out`. Refused with nothing changed where `out` is shorter, and then for an only high
// value that is odd.
pub fn backward(coefficients: &[i32], start: usize, out: &mut [i32]) -> Result<(), Refusal>
    ensures value { answer result ≡ pick (leb (length coefficients.now) (length out.old))
        (pick (has_line_in (side start (length coefficients.now)) (at coefficients.now)) 0 14) 5 }
    ensures out_after { at out.new ≡ pick (both (leb (length coefficients.now) (length out.old))
        (has_line_in (side start (length coefficients.now)) (at coefficients.now)))
        (backward_into (side start (length coefficients.now)) (at coefficients.now) (at out.old)) (at out.old) }
{
    let n = coefficients.len();
    if out.len() < n {
        return Err(Refusal::AreaShort);
    }
    if n < 2 {
        return put_single(coefficients, start, out);
    }
    put_line(coefficients, out, place::lows(n, start), start);
    Ok(())
}
