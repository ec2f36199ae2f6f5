// The whole map, forward and back, against the second arithmetic.
use reference::area::Lent;
use reference::t800::Book;
use reference::tally::Tally;
use reference::{area, heights};
use wavelet::shape::Shape;

// Numbers that each area has more than it needs.
const SURPLUS: usize = 3;

// Forward: the plane is the second one, the work area is zero, the surplus is untouched.
fn forward(
    map: &[u16],
    second: &[u64],
    s: Shape,
    n: usize,
    plane: &mut [i32],
    work: &mut [i32],
) -> u64 {
    plane.fill(i32::MARK);
    work.fill(i32::MARK);
    let mut found = refusal::code(whole_map::forward(map, s, plane, work)) as u64;
    found = area::sum(found, area::differences(plane, n, second, 0));
    found = area::sum(found, area::unmarked(plane, n));
    found = area::sum(found, area::not_zero(work, n));
    area::sum(found, area::unmarked(work, n))
}

// Back: the heights are the map again.
fn backward(
    map: &[u16],
    s: Shape,
    n: usize,
    plane: &[i32],
    heights: &mut [u16],
    work: &mut [i32],
) -> u64 {
    heights.fill(u16::MARK);
    work.fill(i32::MARK);
    let mut found = refusal::code(whole_map::backward(plane, s, heights, work)) as u64;
    found = area::sum(found, area::differences(heights, n, map, 0));
    found = area::sum(found, area::unmarked(heights, n));
    found = area::sum(found, area::not_zero(work, n));
    area::sum(found, area::unmarked(work, n))
}

// Map number i, its areas a little longer than needed.
fn one_map(t: Tally, i: usize) -> Tally {
    let s = heights::shape_at(i);
    let n = heights::count(s);
    let m = n.wrapping_add(SURPLUS);
    let mut map = [0u16; area::PLANE];
    let mut book = Book::new();
    let mut plane = [0i32; area::PLANE];
    let mut work = [0i32; area::PLANE];
    let mut back = [0u16; area::PLANE];
    book.prepare(i, &mut map);
    if area::PLANE < m {
        return t.failed();
    }
    let a = forward(&map, &book.plane, s, n, &mut plane[0..m], &mut work[0..m]);
    let b = backward(&map, s, n, &plane[0..m], &mut back[0..m], &mut work[0..m]);
    t.more(area::sum(n as u64, n as u64), area::sum(a, b))
}

// All maps.
pub fn run() -> Tally {
    let mut t = Tally::default();
    for i in 0..heights::MAPS {
        t = one_map(t, i);
    }
    t
}
