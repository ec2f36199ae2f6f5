// Numbers in decimal, into a lent area.
ghost use Rattle.std.specs.Prelude.{◌≡◌, [], ◌∷◌, ◌≤◌, ◌<◌, ◌+◌, ◌%◌, nat_abs, length};
ghost use Rattle.text.specs.Decimal.{numeral, integer};
ghost use Rattle.text.specs.Text.{Put, Puts};

use crate::bytes;

// The least number of twenty digits; ten times it is beyond 64 bits.
const TWENTY_DIGITS: usize = 10000000000000000000;

// Stays: a `while`, since its limit grows tenfold and a range would count turns that nothing reads.
// How many digits a number has. Limits are multiplied, as a division for each digit takes longer.
pub fn digits(n: usize) -> usize
    ensures { result ≡ length (numeral n) }
{
    let mut count = 1;
    let mut limit = 10;
    while limit <= n {
        count += 1;
        if TWENTY_DIGITS <= limit {
            return count;
        }
        limit = 10 * limit;
    }
    count
}

// The byte right before place `end`.
fn put_before(byte: u8, out: &mut [u8], end: usize) -> usize
    requires { (0 < end) × (end ≤ length out.old) }
    ensures { Put (byte ∷ []) end result out.old out.new }
{
    let place = end - 1;
    out[place] = byte;
    place
}

fn last_digit(n: usize) -> u8
    ensures { result ≡ 48 + n % 10 }
{
    b'0' + (n % 10) as u8
}

// Stays: a `while`, since what is left falls tenfold and a range would need the number of digits first.
// The digits of a number, the last one right before place `end`; answers where they begin.
fn put_digits(n: usize, out: &mut [u8], end: usize) -> usize
    requires { (length (numeral n) ≤ end) × (end ≤ length out.old) }
    ensures { Put (numeral n) end result out.old out.new }
{
    let mut rest = n;
    let mut place = end;
    while 10 <= rest {
        place = put_before(last_digit(rest), out, place);
        rest = rest / 10;
    }
    put_before(last_digit(rest), out, place)
}

// A number whole, or nothing of it; answers the place after it. It has at most twenty digits.
pub fn put_number(n: usize, out: &mut [u8], at: usize) -> usize
    ensures puts { Puts (numeral n) at result out.old out.new }
    ensures n_len_bound { length (numeral n) ≤ 20 }
{
    let count = digits(n);
    if bytes::has_room(out.len(), at, count) {
        put_digits(n, out, at + count);
        return at + count;
    }
    at
}

fn magnitude(v: i32) -> usize
    ensures { result ≡ nat_abs v }
{
    v.unsigned_abs() as usize
}

// The same with a minus before it.
fn put_negative(n: usize, out: &mut [u8], at: usize) -> usize
    ensures { Puts (45 ∷ numeral n) at result out.old out.new }
{
    let count = 1 + digits(n);
    if bytes::has_room(out.len(), at, count) {
        out[at] = b'-';
        put_digits(n, out, at + count);
        return at + count;
    }
    at
}

// A number with its sign: at most eleven bytes.
pub fn put_integer(v: i32, out: &mut [u8], at: usize) -> usize
    ensures puts { Puts (integer v) at result out.old out.new }
    ensures v_len_bound { length (integer v) ≤ 11 }
{
    let m = magnitude(v);
    if v < 0 {
        return put_negative(m, out, at);
    }
    put_number(m, out, at)
}
