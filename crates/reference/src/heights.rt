// The maps that are compared: their sizes, where they start on the grid, and heights of several kinds.
use crate::area;
use wavelet::limits;
use wavelet::shape::Shape;

// Kinds of heights.
#[derive(Clone, Copy)]
enum Kind {
    Any,
    Zero,
    Largest,
    ZeroOrLargest,
    Small,
    Slope,
}

const KINDS: [Kind; KIND_COUNT] = [
    Kind::Any,
    Kind::Zero,
    Kind::Largest,
    Kind::ZeroOrLargest,
    Kind::Small,
    Kind::Slope,
];

const KIND_COUNT: usize = 6;

// 97 sizes: 9 × 9 small ones and the 16 of `large`.
const SIZES: usize = 97;

// At every number of levels, with heights of every kind: once at origin 0,
pub const AT_ZERO: usize = SIZES * limits::MAX_LEVELS * KIND_COUNT;

// and once more at origins from 0 to 3 each way.
pub const MAPS: usize = 2 * AT_ZERO;

// A map at origin 0, by the 5/3.
pub fn shape_of(width: usize, height: usize, levels: usize) -> Shape {
    Shape {
        width,
        height,
        levels,
        x: 0,
        y: 0,
        filter: 0,
    }
}

fn large(i: usize, levels: usize) -> Shape {
    match i {
        0 => shape_of(10, 12, levels),
        1 => shape_of(13, 11, levels),
        2 => shape_of(16, 16, levels),
        3 => shape_of(17, 33, levels),
        4 => shape_of(32, 31, levels),
        5 => shape_of(33, 18, levels),
        6 => shape_of(40, 40, levels),
        7 => shape_of(65, 1, levels),
        8 => shape_of(1, 65, levels),
        9 => shape_of(47, 2, levels),
        10 => shape_of(2, 47, levels),
        11 => shape_of(64, 5, levels),
        12 => shape_of(3, 130, levels),
        13 => shape_of(1, 1025, levels),
        14 => shape_of(limits::MAX_WIDTH - 1, 2, levels),
        _ => shape_of(limits::MAX_WIDTH, 3, levels),
    }
}

// The size and the levels of map number i at origin 0.
fn size_at(i: usize) -> Shape {
    let size = i / (limits::MAX_LEVELS * KIND_COUNT);
    let levels = i % limits::MAX_LEVELS + 1;
    if size < 81 {
        return shape_of(size % 9 + 1, size / 9 + 1, levels);
    }
    large(size - 81, levels)
}

// The size, the levels and the origin of map number i.
pub fn shape_at(i: usize) -> Shape {
    if i < AT_ZERO {
        return size_at(i);
    }
    let j = i - AT_ZERO;
    Shape {
        x: (j % 4) as u16,
        y: (j / 4 % 4) as u16,
        ..size_at(j)
    }
}

// How many heights a map has.
pub fn count(s: Shape) -> usize {
    area::cell(s.width, s.height, 0)
}

// The next number of a row of pseudo-random ones, below 2,147,483,647.
pub fn next(seed: u64) -> u64 {
    (seed % 2147483647) * 48271 % 2147483647
}

// A number from 0 to `times` × n.
pub fn up_to(seed: u64, n: usize, times: usize) -> usize {
    (seed % (area::FAR as u64)) as usize % (area::cell(n, times, 0) + 1)
}

// A height of a kind.
fn height(kind: Kind, seed: u64, i: usize) -> u16 {
    match kind {
        Kind::Any => (seed % 65536) as u16,
        Kind::Zero => 0,
        Kind::Largest => limits::MAX_SAMPLE as u16,
        Kind::ZeroOrLargest => {
            if seed % 2 == 0 {
                return 0;
            }
            limits::MAX_SAMPLE as u16
        }
        Kind::Small => (seed % 8) as u16,
        Kind::Slope => ((i % 257) * 255) as u16,
    }
}

// The heights of map number i at the front of `map`.
pub fn fill(map: &mut [u16], i: usize) {
    let kind = KINDS[i / limits::MAX_LEVELS % KIND_COUNT];
    let mut seed = next(area::sum(i as u64, 1));
    for j in 0..count(shape_at(i)) {
        seed = next(seed);
        area::write(map, j, height(kind, seed, j));
    }
}

// The first n heights as numbers of the second arithmetic.
pub fn load(map: &[u16], plane: &mut [u64], n: usize) {
    for j in 0..n {
        area::write(plane, j, area::read(map, j));
    }
}

// How many columns and rows the low-low part of a level has; of level 0 it is the map.
pub fn columns_at(s: Shape, level: usize) -> usize {
    let x = s.x as usize;
    let end = x.wrapping_add(s.width);
    area::bound(end, level).saturating_sub(area::bound(x, level))
}

pub fn rows_at(s: Shape, level: usize) -> usize {
    let y = s.y as usize;
    let end = y.wrapping_add(s.height);
    area::bound(end, level).saturating_sub(area::bound(y, level))
}

// 4 × (W(0) + ... + W(L−1))
pub fn store_length(s: Shape) -> usize {
    let mut sum: usize = 0;
    for k in 0..s.levels {
        sum = sum.wrapping_add(area::cell(columns_at(s, k), 4, 0));
    }
    sum
}
