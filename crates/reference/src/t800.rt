// T.800's reversible 5/3 a second time, straight from its formulas: one value at a time, in 64 bits, each sample read at its mirrored place.
// No half lines, no lifting in place, no line store; what the library shares with it is the standard alone.
// A number z is held as z + 2^40. So no division has a negative number, and each rounds down, toward minus infinity.
ghost use Rattle.std.specs.Prelude.{◌≤◌};

use crate::{area, heights};
use wavelet::shape::Shape;

// A line of a plane: the place of its first sample, the step to the next one, how many it has, and the coordinate of the first.
#[derive(Clone, Copy)]
struct Line {
    start: usize,
    step: usize,
    count: usize,
    from: usize,
}

// Where sample i − 2 of a line of n stands, the line going on mirrored on both sides. Two more, so that no index is negative.
fn mirror(i: usize, n: usize) -> usize {
    if n < 2 {
        return 0;
    }
    if area::FAR < n {
        return 0;
    }
    if area::FAR < i {
        return 0;
    }
    let period = 2 * (n - 1);
    let m = (i + 2 * period - 2) % period;
    if m < n {
        return m;
    }
    if m < period {
        return period - m;
    }
    0
}

// z, at most twice the base, so that a sum of some of them fits 64 bits. No number that is compared goes beyond.
fn held(z: u64) -> u64
    ensures { result ≤ 2199023255552 }
{
    z.min(2199023255552)
}

// Sample i − 2 of a line.
fn sample(a: &[u64], line: Line, i: usize) -> u64
    ensures { result ≤ 2199023255552 }
{
    let m = mirror(i, line.count);
    held(area::read(a, area::cell(line.step, m, line.start)))
}

// The high value at the odd place i: d = x(i) − ⌊(x(i − 1) + x(i + 1)) / 2⌋. With the base in each number the mean has it too, so it is put back.
fn high(a: &[u64], line: Line, i: usize) -> u64
    requires { (1 ≤ i) × (i ≤ 1048576) }
    ensures { result ≤ 2199023255552 }
{
    let before = sample(a, line, i - 1);
    let after = sample(a, line, i + 1);
    let x = sample(a, line, i);
    held((x + area::BASE).saturating_sub((before + after) / 2))
}

// The low value at the even place i: s = x(i) + ⌊(d(i − 1) + d(i + 1) + 2) / 4⌋. Half the base comes in with the two d, and goes.
fn low(a: &[u64], line: Line, i: usize) -> u64
    requires { (2 ≤ i) × (i ≤ 1000000) }
{
    let before = high(a, line, i - 1);
    let after = high(a, line, i + 1);
    let x = sample(a, line, i);
    (x + (before + after + 2) / 4).saturating_sub(area::BASE / 2)
}

// Whether place i of a line that starts at a coordinate has an even coordinate.
fn is_even(i: usize, from: usize) -> bool {
    i % 2 == from % 2
}

// The only value of a line: the sample, or twice the sample where its coordinate is odd.
fn only(a: &[u64], line: Line, i: usize) -> u64 {
    let x = sample(a, line, 2);
    if is_even(i, line.from) {
        return x;
    }
    (2 * x).saturating_sub(area::BASE)
}

// What a lifted line has at its place i, low and high values interleaved.
fn lifted(a: &[u64], line: Line, i: usize) -> u64 {
    if area::FAR / 2 < i {
        return 0;
    }
    if line.count < 2 {
        return only(a, line, i);
    }
    if is_even(i, line.from) {
        return low(a, line, i + 2);
    }
    high(a, line, i + 2)
}

// Where place i of an interleaved line goes that has n values from a coordinate on: the low values first, then the high ones.
fn deinterleaved(i: usize, n: usize, from: usize) -> usize {
    if is_even(i, from) {
        return i / 2;
    }
    let end = from.wrapping_add(n);
    let low = area::half(end).saturating_sub(area::half(from));
    low.wrapping_add(i / 2)
}

// A part of the plane that is lifted: its rows are `across` apart, and it has these columns and rows from these coordinates on.
#[derive(Clone, Copy)]
struct Part {
    across: usize,
    x: usize,
    w: usize,
    y: usize,
    h: usize,
}

// The low-low part of a level; of level 0 the map.
fn part_at(s: Shape, level: usize) -> Part {
    Part {
        across: s.width,
        x: area::bound(s.x as usize, level),
        w: heights::columns_at(s, level),
        y: area::bound(s.y as usize, level),
        h: heights::rows_at(s, level),
    }
}

// What the second arithmetic works in: the plane, and an area as large to lift it by.
#[derive(Drop)]
pub struct Book {
    pub plane: [u64; area::PLANE],
    other: [u64; area::PLANE],
}

impl Book {
    pub fn new() -> Book {
        Book {
            plane: [0; area::PLANE],
            other: [0; area::PLANE],
        }
    }

    // All columns of a part of the plane, to the second area.
    fn lift_columns(&mut self, p: Part) {
        for r in 0..p.h {
            for c in 0..p.w {
                let line = Line {
                    start: c,
                    step: p.across,
                    count: p.h,
                    from: p.y,
                };
                let v = lifted(&self.plane, line, r);
                area::write(&mut self.other, area::cell(p.across, r, c), v);
            }
        }
    }

    // All rows, from the second area to where their bands stand in the plane.
    fn lift_rows(&mut self, p: Part) {
        for r in 0..p.h {
            let line = Line {
                start: area::cell(p.across, r, 0),
                step: 1,
                count: p.w,
                from: p.x,
            };
            let row = deinterleaved(r, p.h, p.y);
            for c in 0..p.w {
                let v = lifted(&self.other, line, c);
                let place = area::cell(p.across, row, deinterleaved(c, p.w, p.x));
                area::write(&mut self.plane, place, v);
            }
        }
    }

    // The plane of the map that stands in it.
    fn transform(&mut self, s: Shape) {
        for level in 0..s.levels {
            let p = part_at(s, level);
            self.lift_columns(p);
            self.lift_rows(p);
        }
    }

    // Map number i, and its plane.
    pub fn prepare(&mut self, i: usize, map: &mut [u16]) {
        let s = heights::shape_at(i);
        heights::fill(map, i);
        heights::load(map, &mut self.plane, heights::count(s));
        self.transform(s);
    }
}
