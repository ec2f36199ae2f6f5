// The line of a refusal.
ghost use Rattle.std.specs.Prelude.{◌≤◌, length};
ghost use Rattle.text.specs.Text.{Puts};
ghost use Rattle.text.specs.Refusal.{refused_line};

use crate::{bytes, decimal};

// The line whole, or nothing of it; answers the place after it. It has at most 29 bytes.
pub fn put_refused(number: usize, out: &mut [u8], at: usize) -> usize
    ensures puts { Puts (refused_line number) at result out.old out.new }
    ensures number_len_bound { length (refused_line number) ≤ 29 }
{
    if bytes::has_room(out.len(), at, 9 + decimal::digits(number)) {
        let word = bytes::put_bytes(b"refused ", out, at);
        let end = decimal::put_number(number, out, word);
        return bytes::put_byte(b'\n', out, end);
    }
    at
}
