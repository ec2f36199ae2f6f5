// Lines that start at any coordinate, laid in halves and interleaved into their own order. Of the start its parity counts.
ghost use Rattle.std.specs.Prelude.{◌≡◌, ◌+◌, ◌-◌, ◌*◌, ◌/◌, ◌≤◌, length, leb};
ghost use Rattle.numbers.specs.Signal.{at, pick, both, windowed, spliced};
ghost use Rattle.lifting.specs.Grid.{side, joined};
ghost use Rattle.lifting.specs.Halves.{fronted};
ghost use Rattle.lifting.specs.GridHalves.{halves_of, deinterleaved_into};
ghost use Rattle.refusal.specs.Numbers.{answer};
ghost use Rattle.areas.specs.Areas.{alternated, in_turn};

use crate::elements::Element;
use crate::{place, rows};
use refusal::Refusal;

// ---- a line into halves

// Every second number of a line, from number FIRST on: n of them to a row, from place `to` on.
fn part<T: Element, const FIRST: usize>(line: &[T], row: &mut [i32], to: usize, n: usize)
    requires { (to + n ≤ length row.old) × (2 * n + FIRST ≤ length line.now + 1) }
    ensures { at row.new ≡ spliced to n (λ j. T.read line.now (2 * j + FIRST)) (at row.old) }
{
    for j in 0..n {
        row[to + j] = line[2 * j + FIRST].value();
    }
}

// A line to a row in halves, at its front. The half that stands first is laid first: memory is best touched in its order.
pub fn part_line<T: Element>(line: &[T], start: usize, row: &mut [i32]) -> Result<(), Refusal>
    ensures answer { answer result ≡ pick (leb (length line.now) (length row.old)) 0 5 }
    ensures area { at row.new ≡
        pick (leb (length line.now) (length row.old))
        (deinterleaved_into (side start (length line.now)) (T.read line.now) (at row.old)) (at row.old) }
{
    let n = line.len();
    if row.len() < n {
        return Err(Refusal::AreaShort);
    }
    let even = rows::evens(n, start);
    let odd = rows::odds(n, start);
    if start % 2 == 0 {
        part::<T, 0>(line, row, even, n - n / 2);
        part::<T, 1>(line, row, odd, n / 2);
    } else {
        part::<T, 1>(line, row, odd, n / 2);
        part::<T, 0>(line, row, even, n - n / 2);
    }
    Ok(())
}

// ---- a row in halves into its own order

// The numbers of two rows in turn, at the front of `line`. One loop stores both of a pair: the compiler then makes whole vectors of it.
fn put_pairs<T: Element>(first: &[i32], second: &[i32], line: &mut [T])
    requires { (length second.now ≤ length first.now) × (length first.now ≤ length second.now + 1)
        × (length first.now + length second.now ≤ length line.old) }
    ensures { T.read line.new ≡
        fronted (length first.now + length second.now) (λ i. T.kept (alternated (at first.now) (at second.now) i))
        (T.read line.old) }
{
    let end = second.len();
    for j in 0..end {
        line[2 * j] = T::of(first[j]);
        line[2 * j + 1] = T::of(second[j]);
    }
    if end < first.len() {
        line[2 * end] = T::of(first[end]);
    }
}

// A row in halves to the line itself, at the front of `line`. An element keeps of a number what it can: a height keeps it modulo 65,536.
pub fn interleave_line<T: Element>(row: &[i32], start: usize, line: &mut [T]) -> Result<(), Refusal>
    ensures answer { answer result ≡ pick (leb (length row.now) (length line.old)) 0 5 }
    ensures area { T.read line.new ≡
        pick (leb (length row.now) (length line.old))
        (fronted (length row.now) (λ c. T.kept (joined (side start (length row.now))
        (halves_of (side start (length row.now)) (at row.now)) c))
        (T.read line.old)) (T.read line.old) }
{
    let n = row.len();
    if line.len() < n {
        return Err(Refusal::AreaShort);
    }
    let a = rows::evens(n, start);
    let b = rows::odds(n, start);
    let e = a + (n - n / 2);
    let f = b + n / 2;
    put_pairs(&row[a..e], &row[b..f], line);
    Ok(())
}

// ---- the same within one area

// The numbers at place `even` and those at place `odd` in turn to place `to`, before both: n numbers, a pair a turn.
fn interleave_rest(area: &mut [i32], to: usize, even: usize, odd: usize, n: usize)
    requires { (to + n ≤ even) × (to + n ≤ odd) × (even + (n - n / 2) ≤ length area.old) × (odd + n / 2 ≤ length area.old) }
    ensures { at area.new ≡ spliced to n (in_turn even odd (at area.old)) (at area.old) }
{
    let end = n / 2;
    for j in 0..end {
        let a = area[even + j];
        let b = area[odd + j];
        area[to + 2 * j] = a;
        area[to + 2 * j + 1] = b;
    }
    if 2 * end < n {
        area[to + 2 * end] = area[even + end];
    }
}

// The same, four pairs a turn. All eight are read before one is stored: so the compiler makes vectors of them, wherever they stand.
fn interleave_pairs(area: &mut [i32], to: usize, even: usize, odd: usize, n: usize)
    requires { (to + n ≤ even) × (to + n ≤ odd) × (even + (n - n / 2) ≤ length area.old) × (odd + n / 2 ≤ length area.old) }
    ensures { at area.new ≡ spliced to n (in_turn even odd (at area.old)) (at area.old) }
{
    let end = n / 2;
    let mut j = 0;
    while j + 4 <= end {
        let v = place::eight_at(area, even + j, odd + j);
        place::put_eight(area, to + 2 * j, v);
        j += 4;
    }
    interleave_rest(area, to + 2 * j, even + j, odd + j, n - 2 * j);
}

// The n numbers in halves at place `from` to place `to`, before them, in their own order.
pub fn interleave_down(
    area: &mut [i32],
    start: usize,
    from: usize,
    to: usize,
    n: usize,
) -> Result<(), Refusal>
    ensures answer { answer result ≡ pick (both (leb (to + n) from) (leb (from + n) (length area.old))) 0 5 }
    ensures area { at area.new ≡
        pick (both (leb (to + n) from) (leb (from + n) (length area.old)))
        (spliced to n (joined (side start n) (halves_of (side start n) (windowed from n (at area.old)))) (at area.old))
        (at area.old) }
{
    if !rows::apart(area.len(), from, to, n) {
        return Err(Refusal::AreaShort);
    }
    let even = from + rows::evens(n, start);
    let odd = from + rows::odds(n, start);
    interleave_pairs(area, to, even, odd, n);
    Ok(())
}
