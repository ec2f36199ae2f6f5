// A group of numbers as bytes. The module is private, as `parts` is.
ghost use Rattle.std.specs.Prelude.{◌≡◌, true, ◌+◌, ◌≤◌, length};
ghost use Rattle.text.specs.Text.{Wrote};
ghost use Rattle.ground_file.specs.Groups.{holds, group_of};
ghost use Rattle.ground_file.specs.Local.{largest_of};

use crate::{parts, widths};

// The largest of a part's numbers; 0 where there are none.
fn largest(numbers: &[u32]) -> u32
    ensures { result ≡ largest_of numbers.now }
{
    let mut most = 0;
    for x in numbers {
        if most < *x {
            most = *x;
        }
    }
    most
}

// At most 16 numbers, written from place `at` on: a byte and at most twice 28; answers the place after them.
pub fn put(numbers: &[u32], out: &mut [u8], at: usize) -> usize
    requires { (length numbers.now ≤ 16) × (holds 28 numbers.now ≡ true) × (at + 57 ≤ length out.old) }
    ensures { Wrote (group_of numbers.now) at result out.old out.new }
{
    let k = numbers.len().min(8);
    let first = &numbers[..k];
    let second = &numbers[k..];
    let low = widths::code_of(largest(first));
    let high = widths::code_of(largest(second));
    out[at] = (low + 16 * high) as u8;
    let p = parts::pack(first, widths::width_of(low), out, at + 1);
    parts::pack(second, widths::width_of(high), out, p)
}
