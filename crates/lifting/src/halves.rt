// A line in halves lifted back where its high half stands in another area. The call is refused, with nothing changed, where the
// area written is shorter than the line, and then for an only high value that is odd.
ghost use Rattle.std.specs.Prelude.{◌≡◌, ◌+◌, ◌<◌, ◌≤◌, length, set, leb};
ghost use Rattle.numbers.specs.Signal.{at, pick, both};
ghost use Rattle.numbers.specs.Word.{wrap32};
ghost use Rattle.refusal.specs.Numbers.{answer};
ghost use Rattle.lifting.specs.Line.{unpredicted, unupdated};
ghost use Rattle.lifting.specs.Grid.{side};
ghost use Rattle.lifting.specs.Halves.{fronted};
ghost use Rattle.lifting.specs.GridHalves.{unlifted_in_place, has_line_in, highs_laid};
ghost use Rattle.lifting.specs.Passes.{beside_lows, beside_highs, highs_changed, lows_changed, lows_of};

use crate::{place, sample, single};
use refusal::Refusal;

// Place p of `out` without its update by two places of a row.
fn unupdate_by(row: &[i32], out: &mut [i32], p: usize, a: usize, b: usize)
    requires { (p < length out.old) × (a < length row.now) × (b < length row.now) }
    ensures { out.new ≡ set out.old p (unupdated wrap32 (at out.old p) (at row.now a)
        (at row.now b)) }
{
    out[p] = sample::unupdate(out[p], row[a], row[b]);
}

// Place p of `out` from place p of a row, without its prediction by two other places of `out`.
fn unpredict_to(row: &[i32], out: &mut [i32], p: usize, a: usize, b: usize)
    requires { (p < length row.now) × (a < length out.old) × (b < length out.old) × (p < length out.old) }
    ensures { out.new ≡ set out.old p (unpredicted wrap32 (at row.now p) (at out.old a)
        (at out.old b)) }
{
    out[p] = sample::unpredict(row[p], out[a], out[b]);
}

// The low numbers of `out` lifted back, each number n by its high neighbours n + o - 1 and n + o in a row as long; the first and the last may have one.
fn unlift_lows(row: &[i32], out: &mut [i32], low: usize, o: usize)
    requires { beside_highs (length row.now) low o × (length row.now ≡ length out.old) }
    ensures { at out.new ≡ lows_of low (at out.old)
        (lows_changed (unupdated wrap32) o low (length row.now) (lows_of low (at row.now) (at out.old))) }
{
    let high = row.len() - low;
    let end = high - o;
    unupdate_by(row, out, 0, low, low + place::nearest(high, o));
    for n in 1..end {
        unupdate_by(row, out, n, low + n + o - 1, low + n + o);
    }
    let last = end.max(1);
    if last < low {
        unupdate_by(row, out, last, low + high - 1, low + high - 1);
    }
}

// Then the high numbers of the row, lifted back on the way to `out`, each number n by its low neighbours n + o - 1 and n + o there.
fn unlift_highs(row: &[i32], out: &mut [i32], low: usize, o: usize)
    requires { beside_lows (length row.now) low o × (length row.now ≡ length out.old) }
    ensures { at out.new ≡ highs_changed (unpredicted wrap32) o low (length row.now)
        (lows_of low (at row.now) (at out.old)) }
{
    let end = low - o;
    unpredict_to(row, out, low, 0, place::nearest(low, o));
    for n in 1..end {
        unpredict_to(row, out, low + n, n + o - 1, n + o);
    }
    let last = low + end.max(1);
    if last < row.len() {
        unpredict_to(row, out, last, low - 1, low - 1);
    }
}

// A row in halves of more than one number lifted back in `out`, which has its low half; its high half is read from a row as long.
fn unlift_row(row: &[i32], start: usize, out: &mut [i32])
    requires { (1 < length row.now) × (length row.now ≡ length out.old) }
    ensures { at out.new ≡ unlifted_in_place (side start (length row.now))
        (highs_laid (side start (length row.now)) (at row.now) (at out.old)) }
{
    let b = start % 2;
    let low = place::lows(row.len(), start);
    unlift_lows(row, out, low, b);
    unlift_highs(row, out, low, 1 - b);
}

// A row of one number or none: an only high value is halved on the way to `out`, and an odd one is refused.
fn unlift_single(row: &[i32], start: usize, out: &mut [i32]) -> Result<(), Refusal>
    requires { (length row.now < 2) × (length row.now ≤ length out.old) }
    ensures value { answer result ≡ pick (has_line_in (side start (length row.now))
        (highs_laid (side start (length row.now)) (at row.now) (at out.old))) 0 14 }
    ensures out_after { at out.new ≡ pick (has_line_in (side start (length row.now))
        (highs_laid (side start (length row.now)) (at row.now) (at out.old)))
        (fronted (length row.now) (unlifted_in_place (side start (length row.now))
        (highs_laid (side start (length row.now)) (at row.now) (at out.old))) (at out.old)) (at out.old) }
{
    if single::is_single(row.len(), start) {
        out[0] = sample::half(row[0])?;
    }
    Ok(())
}

// A line in halves lifted back at the front of `out`, which has its low half; its high half is read from `row`, whose low half is not.
pub fn unlift_by(row: &[i32], start: usize, out: &mut [i32]) -> Result<(), Refusal>
    ensures value { answer result ≡ pick (leb (length row.now) (length out.old))
        (pick (has_line_in (side start (length row.now)) (highs_laid (side start (length row.now)) (at row.now)
        (at out.old))) 0 14) 5 }
    ensures out_after { at out.new ≡ pick (both (leb (length row.now) (length out.old))
        (has_line_in (side start (length row.now)) (highs_laid (side start (length row.now)) (at row.now)
        (at out.old)))) (fronted (length row.now)
        (unlifted_in_place (side start (length row.now)) (highs_laid (side start (length row.now)) (at row.now)
        (at out.old))) (at out.old)) (at out.old) }
{
    let n = row.len();
    if out.len() < n {
        return Err(Refusal::AreaShort);
    }
    if n < 2 {
        return unlift_single(row, start, out);
    }
    unlift_row(row, start, &mut out[0..n]);
    Ok(())
}
