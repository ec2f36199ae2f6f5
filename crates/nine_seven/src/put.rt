// Coefficients in halves to the line that has them, in another area.
// The module is private: only the line calls, which meet what is required, can call it.
ghost use Rattle.std.specs.Prelude.{◌≡◌, ◌+◌, ◌-◌, ◌*◌, ◌%◌, ◌<◌, ◌≤◌, length, set};
ghost use Rattle.numbers.specs.Signal.{at};
ghost use Rattle.numbers.specs.Word.{wrap32};
ghost use Rattle.lifting.specs.Line.{lo, hi};
ghost use Rattle.lifting.specs.Grid.{side, count, joined};
ghost use Rattle.nine_seven.specs.NineSeven.{unpredicted, unupdated};
ghost use Rattle.nine_seven.specs.Memory.{backward_into};
ghost use Rattle.nine_seven.specs.Passes.{made, line_put};

use crate::{near, place, sample};

// ---- any place of a line

// Number n of its even coordinates.
fn even_of(coefficients: &[i32], low: usize, start: usize, n: usize) -> i32
    requires { (low ≡ count lo (side start (length coefficients.now))) × (1 < length coefficients.now) × (n < low) }
    ensures { result ≡ made (side start (length coefficients.now)) (at coefficients.now) lo n }
{
    let b = start % 2;
    let high = coefficients.len() - low;
    let l = low + place::left(high, b, n);
    let r = low + near::nearest(high, n + b);
    sample::unupdate(coefficients[n], coefficients[l], coefficients[r])
}

// Number n of its odd coordinates.
fn odd_of(coefficients: &[i32], low: usize, start: usize, n: usize) -> i32
    requires { (low ≡ count lo (side start (length coefficients.now))) × (1 < length coefficients.now) × (low + n < length coefficients.now) }
    ensures { result ≡ made (side start (length coefficients.now)) (at coefficients.now) hi n }
{
    let o = 1 - start % 2;
    let high = coefficients.len() - low;
    let a = even_of(coefficients, low, start, place::left(low, o, n));
    let b = even_of(coefficients, low, start, near::nearest(low, n + o));
    let c = even_of(coefficients, low, start, place::far_left(low, o, n));
    let e = even_of(coefficients, low, start, place::far_right(low, high, o, n));
    sample::unpredict(coefficients[low + n], a, b, c, e)
}

fn line_at(coefficients: &[i32], low: usize, start: usize, q: usize) -> i32
    requires { (low ≡ count lo (side start (length coefficients.now))) × (1 < length coefficients.now) × (q < length coefficients.now) }
    ensures { result ≡ joined (side start (length coefficients.now))
        (made (side start (length coefficients.now)) (at coefficients.now)) q }
{
    if (start % 2 + q) % 2 == 0 {
        return even_of(coefficients, low, start, q / 2);
    }
    odd_of(coefficients, low, start, q / 2)
}

// The places from `from` on that come before `to`.
fn put_ends(coefficients: &[i32], out: &mut [i32], low: usize, start: usize, from: usize, to: usize)
    requires { (low ≡ count lo (side start (length coefficients.now))) × (1 < length coefficients.now) × (from ≤ to)
        × (to ≤ length coefficients.now) × (length coefficients.now ≤ length out.old) }
    ensures { at out.new ≡ line_put (side start (length coefficients.now)) from to (at coefficients.now)
        (at out.old) }
{
    for q in from..to {
        out[q] = line_at(coefficients, low, start, q);
    }
}

// ---- away from the ends nothing is mirrored, and an even coordinate is worked out once and carried on

// The even coordinate that has the low value at place n and the high ones at places p and p + 1.
fn next_even(coefficients: &[i32], n: usize, p: usize) -> i32
    requires { (n < length coefficients.now) × (p + 1 < length coefficients.now) }
    ensures { result ≡ unupdated wrap32 (at coefficients.now n) (at coefficients.now p) (at coefficients.now (p + 1)) }
{
    sample::unupdate(coefficients[n], coefficients[p], coefficients[p + 1])
}

// Places q and q + 1 of a line: one at an even coordinate, e1, and the high value at place p with it, the next, e2, and those beyond, e0 and e3.
fn put_pair(
    coefficients: &[i32],
    out: &mut [i32],
    p: usize,
    q: usize,
    e0: i32,
    e1: i32,
    e2: i32,
    e3: i32,
)
    requires { (p < length coefficients.now) × (q + 1 < length out.old) }
    ensures { out.new ≡ set (set out.old q e1) (q + 1)
        (unpredicted wrap32 (at coefficients.now p) e1 e2 e0 e3) }
{
    out[q] = e1;
    out[q + 1] = sample::unpredict(coefficients[p], e1, e2, e0, e3);
}

// The places of the even coordinates from number `from` on, and of the odd ones after them, before that of number `to`.
fn put_inner(
    coefficients: &[i32],
    out: &mut [i32],
    low: usize,
    start: usize,
    from: usize,
    to: usize,
)
    requires { (low ≡ count lo (side start (length coefficients.now))) × (1 < length coefficients.now) × (1 ≤ from) × (from ≤ to)
        × (low + to + start % 2 + 1 < length coefficients.now) × (length coefficients.now ≤ length out.old) }
    ensures { at out.new ≡ line_put (side start (length coefficients.now)) (2 * from + start % 2) (2 * to + start % 2)
        (at coefficients.now) (at out.old) }
{
    let b = start % 2;
    let high = low + b;
    let mut e0 = even_of(coefficients, low, start, from - 1);
    let mut e1 = even_of(coefficients, low, start, from);
    let mut e2 = even_of(coefficients, low, start, from + 1);
    for n in from..to {
        let e3 = next_even(coefficients, n + 2, high + n + 1);
        put_pair(coefficients, out, high + n, 2 * n + b, e0, e1, e2, e3);
        e0 = e1;
        e1 = e2;
        e2 = e3;
    }
}

// A line of more than one number.
pub fn put_line(coefficients: &[i32], out: &mut [i32], start: usize)
    requires { (1 < length coefficients.now) × (length coefficients.now ≤ length out.old) }
    ensures { at out.new ≡ backward_into (side start (length coefficients.now)) (at coefficients.now)
        (at out.old) }
{
    let n = coefficients.len();
    let b = start % 2;
    let low = near::lows(n, start);
    if n - low < b + 3 {
        put_ends(coefficients, out, low, start, 0, n);
        return;
    }
    let to = n - low - b - 2;
    put_ends(coefficients, out, low, start, 0, 2 + b);
    put_inner(coefficients, out, low, start, 1, to);
    put_ends(coefficients, out, low, start, 2 * to + b, n);
}
