// Line calls: a whole line lifted, in place in halves, or from one area to another. A line starts at a coordinate of the grid, any number: only whether it is
// odd counts. A line of one number or none is as the 5/3 has it.
ghost use Rattle.std.specs.Prelude.{◌≡◌, ◌+◌, ◌-◌, ◌<◌, ◌≤◌, length, set, leb};
ghost use Rattle.numbers.specs.Signal.{at, pick, both};
ghost use Rattle.lifting.specs.Grid.{side};
ghost use Rattle.lifting.specs.GridHalves.{has_line_in};
ghost use Rattle.nine_seven.specs.Memory.{lifted_in_place, unlifted_in_place, forward_into, backward_into};
ghost use Rattle.nine_seven.specs.Passes.{high_by, highs_between};

use crate::step::{Predict, Unpredict, Unupdate, Update, WideStep};
use crate::{near, place, put};
use areas::lines;
use lifting::line as five_three;
use lifting::passes::change_lows;

// ---- the high numbers of a line in halves. Those near an end, which may go by mirrored numbers, stand outside the loop that becomes vector code

fn change_end<S: WideStep>(line: &mut [i32], low: usize, o: usize, n: usize)
    requires { (0 < low) × (low + n < length line.old) × (o ≤ 1) × (n + o ≤ low) }
    ensures { line.new ≡ set line.old (low + n) (high_by S.op o low (length line.old) (at line.old) n) }
{
    let a = place::left(low, o, n);
    let b = near::nearest(low, n + o);
    let c = place::far_left(low, o, n);
    let e = place::far_right(low, line.len() - low, o, n);
    place::step_at::<S>(line, low + n, a, b, c, e);
}

fn change_ends<S: WideStep>(line: &mut [i32], low: usize, o: usize, from: usize, to: usize)
    requires { (0 < low) × (low + to ≤ length line.old) × (o ≤ 1) × (to + o ≤ low + 1) × (from ≤ to) }
    ensures { at line.new ≡ highs_between S.op o low (length line.old) from to (at line.old) }
{
    for n in from..to {
        change_end::<S>(line, low, o, n);
    }
}

fn change_inner<S: WideStep>(line: &mut [i32], low: usize, o: usize, from: usize, to: usize)
    requires { (2 ≤ from) × (low + to < length line.old) × (o ≤ 1) × (to + o < low) × (from ≤ to) }
    ensures { at line.new ≡ highs_between S.op o low (length line.old) from to (at line.old) }
{
    for n in from..to {
        place::step_at::<S>(line, low + n, n + o - 1, n + o, n + o - 2, n + o + 1);
    }
}

fn change_highs<S: WideStep>(line: &mut [i32], low: usize, o: usize)
    requires { (0 < low) × (low < length line.old) × (o ≤ 1) × (low + low ≤ length line.old + o) × (length line.old + o ≤ low + low + 1) }
    ensures { at line.new ≡ highs_between S.op o low (length line.old) 0 (length line.old - low) (at line.old) }
{
    let high = line.len() - low;
    if high < 4 {
        change_ends::<S>(line, low, o, 0, high);
        return;
    }
    change_ends::<S>(line, low, o, 0, 2);
    change_inner::<S>(line, low, o, 2, high - 2);
    change_ends::<S>(line, low, o, high - 2, high);
}

// ---- a line in halves, in place

// The low values first, then the high ones.
pub fn lift(line: &mut [i32], start: usize)
    ensures { at line.new ≡ lifted_in_place (side start (length line.old)) (at line.old) }
{
    let n = line.len();
    if n < 2 {
        five_three::lift(line, start);
        return;
    }
    let b = start % 2;
    let low = near::lows(n, start);
    change_highs::<Predict>(line, low, 1 - b);
    change_lows::<Update>(line, low, b);
}

// The way back of one number or none. A function of its own, never inlined: such a line would pay for the frame of the passes over a longer one.
#[inline(never)]
fn unlift_short(line: &mut [i32], start: usize) -> u8
    requires { length line.old < 2 }
    ensures value { result ≡ pick (has_line_in (side start (length line.old)) (at line.old)) 0 14 }
    ensures line_after { at line.new ≡ pick (has_line_in (side start (length line.old)) (at line.old))
        (unlifted_in_place (side start (length line.old)) (at line.old)) (at line.old) }
{
    refusal::code(five_three::unlift(line, start))
}

// The way back: low and high values in place to the line in halves. 14, and nothing changed, for an only high value that is odd.
pub fn unlift(line: &mut [i32], start: usize) -> u8
    ensures value { result ≡ pick (has_line_in (side start (length line.old)) (at line.old)) 0 14 }
    ensures line_after { at line.new ≡ pick (has_line_in (side start (length line.old)) (at line.old))
        (unlifted_in_place (side start (length line.old)) (at line.old)) (at line.old) }
{
    let n = line.len();
    if n < 2 {
        return unlift_short(line, start);
    }
    let b = start % 2;
    let low = near::lows(n, start);
    change_lows::<Unupdate>(line, low, b);
    change_highs::<Unpredict>(line, low, 1 - b);
    0
}

// ---- from one area to another

// A line's low values, then its high values, at the front of `out`: its places deinterleaved, and lifted there.
// 5, and nothing changed, where `out` is shorter than the line.
pub fn forward(line: &[i32], start: usize, out: &mut [i32]) -> u8
    ensures value { result ≡ pick (leb (length line.now) (length out.old)) 0 5 }
    ensures out_after { at out.new ≡ pick (leb (length line.now) (length out.old))
        (forward_into (side start (length line.now)) (at line.now) (at out.old)) (at out.old) }
{
    let n = line.len();
    if out.len() < n {
        return 5;
    }
    let _ = lines::part_line(line, start, out);
    lift(&mut out[0..n], start);
    0
}

// Low values, then high values, to the line that has them, at the front of `out`. With nothing changed 5, where `out` is shorter, then 14, for an only high
// value that is odd.
pub fn backward(coefficients: &[i32], start: usize, out: &mut [i32]) -> u8
    ensures value { result ≡ pick (leb (length coefficients.now) (length out.old))
        (pick (has_line_in (side start (length coefficients.now)) (at coefficients.now)) 0 14) 5 }
    ensures out_after { at out.new ≡ pick (both (leb (length coefficients.now) (length out.old))
        (has_line_in (side start (length coefficients.now)) (at coefficients.now)))
        (backward_into (side start (length coefficients.now)) (at coefficients.now) (at out.old)) (at out.old) }
{
    let n = coefficients.len();
    if n < 2 {
        return refusal::code(five_three::backward(coefficients, start, out));
    }
    if out.len() < n {
        return 5;
    }
    put::put_line(coefficients, out, start);
    0
}
