// Numbers of w bits each, taken from a number's bits, the first from the lowest. The module is private, as `widths` is.
ghost use Rattle.std.specs.Prelude.{◌≡◌, ◌+◌, ◌*◌, ◌/◌, ◌%◌, ◌^◌, ◌≤◌, ◌<◌, length};
ghost use Rattle.numbers.specs.Signal.{at, spliced};
ghost use Rattle.ground_loader.specs.Numbers.{value_of, number_at, numbers_in, greatest};

// The value for which a number stands in a file.
fn value_of(number: u64) -> i32
    requires { number < 2 ^ 28 }
    ensures { result ≡ value_of number }
{
    let half = (number / 2) as i32;
    if number % 2 == 0 { half } else { -1 - half }
}

// The lowest w bits.
fn lowest(bits: u64, w: usize) -> u64
    requires { w ≤ 28 }
    ensures { result ≡ bits % 2 ^ w }
{
    bits - ((bits >> w) << w)
}

// The largest of k numbers and of `most`.
pub fn largest(bits: u64, w: usize, k: usize, most: u64) -> u64
    requires { w ≤ 28 }
    ensures { result ≡ greatest most (numbers_in w k bits) }
{
    let mut rest = bits;
    let mut r = most;
    for _i in 0..k {
        r = r.max(lowest(rest, w));
        rest >>= w;
    }
    r
}

// The values of k numbers stored from place `from` on; answers the bits after them.
pub fn store(bits: u64, w: usize, k: usize, row: &mut [i32], from: usize) -> u64
    requires { (w ≤ 28) × (from + k ≤ length row.old) }
    ensures value { result ≡ bits / 2 ^ (w * k) }
    ensures row_after { at row.new ≡ spliced from k (λ i. value_of (number_at w bits i)) (at row.old) }
{
    let mut rest = bits;
    for i in 0..k {
        row[from + i] = value_of(lowest(rest, w));
        rest >>= w;
    }
    rest
}
