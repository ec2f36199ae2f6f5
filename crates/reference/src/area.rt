// Numbers of an area, read and written at any place: nothing is to be shown where they are called.
ghost use Rattle.std.specs.Prelude.{◌≤◌};

// Larger than any side or place within a line that is compared here.
pub const FAR: usize = 1048576;

// A number z of the second arithmetic is held as BASE + z.
pub const BASE: u64 = 1099511627776;

// More numbers than any map that is compared has.
pub const PLANE: usize = 6160;

// Numbers that are compared, each as one of the second arithmetic.
pub trait Number: Copy {
    // What stands for a number past the end of an area: none that is compared.
    const NONE: u64;

    fn raised(self) -> u64;
}

impl Number for u64 {
    const NONE: u64 = 0;

    fn raised(self) -> u64 {
        self
    }
}

impl Number for i32 {
    const NONE: u64 = 1;

    fn raised(self) -> u64 {
        (self as i64 + 1099511627776) as u64
    }
}

impl Number for u16 {
    const NONE: u64 = 1;

    fn raised(self) -> u64 {
        self as u64 + BASE
    }
}

// Numbers of areas that are lent.
pub trait Lent: Number {
    // What such an area holds where nothing should be written.
    const MARK: Self;
}

impl Lent for i32 {
    const MARK: i32 = 1234567;
}

impl Lent for u16 {
    const MARK: u16 = 12345;
}

// The number at a place.
pub fn read<T: Number>(a: &[T], i: usize) -> u64 {
    if i < a.len() {
        return a[i].raised();
    }
    T::NONE
}

pub fn write<T: Copy>(a: &mut [T], i: usize, v: T) {
    if i < a.len() {
        a[i] = v;
    }
}

// ⌈n / 2⌉
pub fn half(n: usize) -> usize {
    n - n / 2
}

// T.800, B.5: where a level's part of a side begins, or ends, of a side that begins, or ends, at coordinate c: ⌈c / 2^level⌉.
pub fn bound(c: usize, level: usize) -> usize {
    let mut s = c;
    for _ in 0..level {
        s = half(s);
    }
    s
}

fn product(a: usize, b: usize) -> usize
    requires { (a ≤ 1048576) × (b ≤ 1048576) }
    ensures { result ≤ 1099511627776 }
{
    a * b
}

// The place of row r and column c in rows of `width` numbers; 0 where it would be far off.
pub fn cell(width: usize, r: usize, c: usize) -> usize
    ensures { result ≤ 1099512676352 }
{
    if FAR < width {
        return 0;
    }
    if FAR < r {
        return 0;
    }
    if FAR < c {
        return 0;
    }
    product(r, width) + c
}

// 1 where two numbers differ.
pub fn differ<T: PartialEq + Copy>(a: T, b: T) -> u64 {
    if a == b { 0 } else { 1 }
}

pub fn sum(a: u64, b: u64) -> u64 {
    a.wrapping_add(b)
}

// How many numbers of a lent area are no marks from place n on.
pub fn unmarked<T: Lent>(a: &[T], n: usize) -> u64 {
    let mut found = 0;
    for i in n..a.len() {
        found = sum(found, differ(a[i].raised(), T::MARK.raised()));
    }
    found
}

// How many of the first n numbers of `a` differ from those of `b` from place `start` on.
pub fn differences<A: Number, B: Number>(a: &[A], n: usize, b: &[B], start: usize) -> u64 {
    let mut found = 0;
    for i in 0..n {
        found = sum(found, differ(read(a, i), read(b, start.wrapping_add(i))));
    }
    found
}

// How many of the first n numbers of `a` are not 0.
pub fn not_zero(a: &[i32], n: usize) -> u64 {
    let mut found = 0;
    for i in 0..n {
        found = sum(found, differ(read(a, i), BASE));
    }
    found
}
