// The four lifting steps, each on one sample and its neighbours. A sum of the high step passes 32 bits, and so does its sixteenth: it is taken in parts that do
// not, so that a loop of them stays in 32-bit lanes.
ghost use Rattle.std.specs.Prelude.{◌≡◌, ◌≤◌, pos, nat_abs, ◌+ℤ◌, ◌-ℤ◌, ◌*ℤ◌};
ghost use Rattle.std.specs.Int.Signed.{shr_z};
ghost use Rattle.numbers.specs.Word.{wrap32};
ghost use Rattle.nine_seven.specs.NineSeven.{predicted, unpredicted, updated, unupdated};

use lifting::sample;

// ⌊a / 16⌋ + ⌊b / 16⌋
fn sixteenths(a: i32, b: i32) -> i32
    ensures { result ≡ shr_z a 16 +ℤ shr_z b 16 }
{
    (a >> 4) + (b >> 4)
}

// a + b less sixteen times that
fn rests(a: i32, b: i32) -> i32
    ensures { (result ≡ (a +ℤ b) -ℤ pos 16 *ℤ (shr_z a 16 +ℤ shr_z b 16)) × (nat_abs result ≤ 30) }
{
    (a - 16 * (a >> 4)) + (b - 16 * (b >> 4))
}

// s − t + ⌊(9u − v + 8) / 16⌋
fn lesser_part(s: i32, t: i32, u: i32, v: i32) -> i32
    requires { (nat_abs s ≤ 268435456) × (nat_abs t ≤ 268435456) × (nat_abs u ≤ 30) × (nat_abs v ≤ 30) }
    ensures { result ≡ s -ℤ t +ℤ shr_z (pos 9 *ℤ u -ℤ v +ℤ pos 8) 16 }
{
    s - t + ((9 * u - v + 8) >> 4)
}

// ⌊(a + b + 1) / 4⌋, which is −⌊(2 − a − b) / 4⌋, as half of the upper half
fn quarter_sum(a: i32, b: i32) -> i32
    ensures { result ≡ shr_z (a +ℤ b +ℤ pos 1) 4 }
{
    (((a as i64 + b as i64 + 1) >> 1) as i32) >> 1
}

// A high sample by those one place off, a and b, and three places off, c and e.
pub fn predict(x: i32, a: i32, b: i32, c: i32, e: i32) -> i32
    ensures { result ≡ predicted wrap32 x a b c e }
{
    let s = sixteenths(a, b);
    let part = lesser_part(s, sixteenths(c, e), rests(a, b), rests(c, e));
    sample::less(sample::less(x, 8 * s), part)
}

pub fn unpredict(x: i32, a: i32, b: i32, c: i32, e: i32) -> i32
    ensures { result ≡ unpredicted wrap32 x a b c e }
{
    let s = sixteenths(a, b);
    let part = lesser_part(s, sixteenths(c, e), rests(a, b), rests(c, e));
    sample::more(sample::more(x, 8 * s), part)
}

// A low sample by the high values one place off.
pub fn update(x: i32, a: i32, b: i32) -> i32
    ensures { result ≡ updated wrap32 x a b }
{
    sample::more(x, quarter_sum(a, b))
}

pub fn unupdate(x: i32, a: i32, b: i32) -> i32
    ensures { result ≡ unupdated wrap32 x a b }
{
    sample::less(x, quarter_sum(a, b))
}
