// The values of a band row, each after a space, written forward while there is room for the longest. The module is private: only this crate, which
// meets what is required, can call it.
ghost use Rattle.std.specs.Prelude.{◌∷◌, ◌+◌, ◌-◌, ◌<◌, ◌≤◌, length};
ghost use Rattle.numbers.specs.Signal.{at as number_at};
ghost use Rattle.text.specs.Decimal.{integer};
ghost use Rattle.text.specs.Text.{Wrote};
ghost use Rattle.listing.specs.Lines.{spaced};

use text::{bytes, decimal};

// A space, a sign and ten digits.
pub const LONGEST: usize = 12;

// The value that is next, and the place after what was written.
#[derive(Clone, Copy)]
pub struct Values {
    pub value: usize,
    pub place: usize,
}

// One value from place `at` on; answers the place after it.
fn write_value(v: i32, out: &mut [u8], at: usize) -> usize
    requires { at + 12 ≤ length out.old }
    ensures { Wrote (32 ∷ integer v) at result out.old out.new }
{
    let place = bytes::put_byte(b' ', out, at);
    decimal::put_integer(v, out, place)
}

// The values of a row from `from` on, up to `end`.
pub fn put_values(row: &[i32], from: usize, end: usize, out: &mut [u8], at: usize) -> Values
    requires { (from ≤ end) × (end ≤ length row.now) × (at ≤ length out.old) }
    ensures from_le_value { (from ≤ result.value) × (result.value ≤ end) }
    ensures wrote { Wrote (spaced (result.value - from) (λ i. number_at row.now (from + i))) at result.place out.old out.new }
    ensures from_lt_value { from < end → at + 12 ≤ length out.old → from < result.value }
{
    let mut place = at;
    for value in from..end {
        if out.len() - place < LONGEST {
            return Values { value, place };
        }
        place = write_value(row[value], out, place);
    }
    Values { value: end, place }
}
