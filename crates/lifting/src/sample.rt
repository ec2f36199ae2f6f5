// The four lifting steps, each on one sample and its two neighbours, and the steps of a line's only sample at an odd coordinate.
ghost use Rattle.std.specs.Prelude.{◌≡◌, ◌<◌, ◌≤◌, pos, nat_abs, ◌+ℤ◌, ◌-ℤ◌, ◌*ℤ◌};
ghost use Rattle.std.specs.Int.Signed.{shr_z};
ghost use Rattle.numbers.specs.Word.{wrap32};
ghost use Rattle.lifting.specs.Line.{predicted, unpredicted, updated, unupdated};
ghost use Rattle.lifting.specs.Grid.{is_even};
ghost use Rattle.lifting.specs.Ranges.{within};
ghost use Rattle.lifting.specs.Single.{half};

use refusal::Refusal;

// z as 32 bits keep it, without a branch
fn wrap(z: i64) -> i32
    requires { nat_abs z ≤ 4294967296 }
    ensures { result ≡ wrap32 z }
{
    let k = (z + 2147483648) >> 32;
    (z - 4294967296 * k) as i32
}

// x with f, and without it.
pub fn more(x: i32, f: i32) -> i32
    ensures { result ≡ wrap32 (x +ℤ f) }
{
    wrap(x as i64 + f as i64)
}

pub fn less(x: i32, f: i32) -> i32
    ensures { result ≡ wrap32 (x -ℤ f) }
{
    wrap(x as i64 - f as i64)
}

// ⌊(a + b) / 2⌋
fn half_sum(a: i32, b: i32) -> i32
    ensures { result ≡ shr_z (a +ℤ b) 2 }
{
    ((a as i64 + b as i64) >> 1) as i32
}

// ⌊(a + b + 2) / 4⌋ as the larger half of the half: no step needs more than 32 bits and a carry, so a loop of them stays in 32-bit lanes
fn quarter_sum(a: i32, b: i32) -> i32
    ensures { result ≡ shr_z (a +ℤ b +ℤ pos 2) 4 }
{
    let h = half_sum(a, b);
    h - (h >> 1)
}

pub fn predict(x: i32, a: i32, b: i32) -> i32
    ensures { result ≡ predicted wrap32 x a b }
{
    less(x, half_sum(a, b))
}

pub fn unpredict(x: i32, a: i32, b: i32) -> i32
    ensures { result ≡ unpredicted wrap32 x a b }
{
    more(x, half_sum(a, b))
}

pub fn update(x: i32, a: i32, b: i32) -> i32
    ensures { result ≡ updated wrap32 x a b }
{
    more(x, quarter_sum(a, b))
}

pub fn unupdate(x: i32, a: i32, b: i32) -> i32
    ensures { result ≡ unupdated wrap32 x a b }
{
    less(x, quarter_sum(a, b))
}

// Twice a sample.
pub fn double(x: i32) -> i32
    ensures { result ≡ wrap32 (pos 2 *ℤ x) }
{
    more(x, x)
}

// Half a value, rounded down.
pub fn halve(x: i32) -> i32
    ensures { result ≡ shr_z x 2 }
{
    x >> 1
}

// Half a value that is even; an odd one has no half, and no map has it.
pub fn half(x: i32) -> Result<i32, Refusal>
    ensures { result ≡ half x }
{
    if !is_even(x) {
        return Err(Refusal::NoMap);
    }
    Ok(halve(x))
}

pub fn is_even(x: i32) -> bool
    ensures { result ≡ is_even x }
{
    let h = x >> 1;
    h + h == x
}

// Whether a sample lies from `least` to `most`, without a branch.
pub fn is_within(x: i32, least: i32, most: i32) -> bool
    ensures { result ≡ within least most x }
{
    (least <= x) & (x <= most)
}
