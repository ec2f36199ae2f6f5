// The ends of the row, where a neighbour may be outside it and is mirrored. The module is private: what is required, its callers in the crate meet.
ghost use Rattle.std.specs.Prelude.{◌≡◌, ◌+◌, ◌<◌, ◌≤◌, length, ltb};
ghost use Rattle.numbers.specs.Signal.{pick};
ghost use Rattle.profile.specs.Calls.{heights};
ghost use Rattle.profile.specs.OnePass.{next_even, next_first, next_second, turned_at, opened, paired, closed};

use crate::carry;
use crate::carry::Carried;

// A height as a float.
pub fn height(row: &[u16], i: usize) -> f32
    requires { i < length row.now }
    ensures { result ≡ heights row.now i }
{
    row[i] as f32
}

// Sample p + 4.
fn next_even(row: &[u16], p: usize, s: Carried) -> f32
    requires { p < length row.now }
    ensures { result ≡ next_even (length row.now) (heights row.now) p s }
{
    if p + 4 < row.len() {
        height(row, p + 4)
    } else {
        s.even
    }
}

// Sample p + 3 after the first pass.
fn next_first(row: &[u16], p: usize, s: Carried, even: f32) -> f32
    requires { p < length row.now }
    ensures { result ≡ next_first (length row.now) (heights row.now) p s even }
{
    if p + 3 < row.len() {
        carry::lift_first(s.even, height(row, p + 3), even)
    } else {
        s.first
    }
}

// Sample p + 2 after the second.
fn next_second(row: &[u16], p: usize, s: Carried, first: f32) -> f32
    requires { p < length row.now }
    ensures { result ≡ next_second (length row.now) p s first }
{
    if p + 2 < row.len() {
        carry::lift_second(s.first, s.even, first)
    } else {
        s.second
    }
}

// One turn near the row's end.
pub fn turn_at(row: &[u16], p: usize, s: Carried) -> Carried
    requires { p < length row.now }
    ensures { result ≡ turned_at (length row.now) (heights row.now) p s }
{
    let even = next_even(row, p, s);
    let first = next_first(row, p, s, even);
    carry::carry_on(s, even, first, next_second(row, p, s, first))
}

// Sample 2, mirrored in a row of two.
fn third_sample(row: &[u16]) -> f32
    requires { 1 < length row.now }
    ensures { result ≡ pick (ltb 2 (length row.now)) (heights row.now 2) (heights row.now 0) }
{
    if 2 < row.len() {
        height(row, 2)
    } else {
        height(row, 0)
    }
}

// What the first pair is given: the third value before it is the one after it, mirrored.
pub fn open(row: &[u16]) -> Carried
    requires { 1 < length row.now }
    ensures { result ≡ opened (length row.now) (heights row.now) }
{
    let x = height(row, 0);
    let even = third_sample(row);
    let first = carry::lift_first(x, height(row, 1), even);
    let second = carry::lift_second(first, x, first);
    let third = first;
    let t = turn_at(
        row,
        0,
        Carried {
            even,
            first,
            second,
            third,
        },
    );
    Carried {
        even,
        first,
        second,
        third: t.third,
    }
}

// A pair is stored.
pub fn store_pair(out: &mut [f32], p: usize, even: f32, odd: f32)
    requires { p + 1 < length out.old }
    ensures { out.new ≡ paired out.old p even odd }
{
    out[p] = even;
    out[p + 1] = odd;
}

// What is left from place p on, after the pair before it: two samples, one or none.
pub fn close(row: &[u16], out: &mut [f32], p: usize, s: Carried)
    requires { (p ≤ length row.now) × (length row.now ≤ length out.old) }
    ensures { out.new ≡ closed (length row.now) (heights row.now) p s out.old }
{
    let n = row.len();
    if p == n {
        return;
    }
    if p + 1 < n {
        let t = turn_at(row, p, s);
        store_pair(
            out,
            p,
            carry::lift_fourth(s.third, s.second, t.third),
            t.third,
        );
        return;
    }
    out[p] = carry::lift_fourth(s.third, s.second, s.third);
}
