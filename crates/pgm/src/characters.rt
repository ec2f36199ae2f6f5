// The bytes of a header: whitespace, ends of lines and digits.
ghost use Rattle.std.specs.Prelude.{◌≡◌, suc, ◌+◌, ◌*◌, ◌-◌, min};
ghost use Rattle.pgm.specs.Characters.{space, line_end, digit, digit_value};
ghost use Rattle.pgm.specs.Limits.{max_field};

#[tactic(auto, unfolding(crate::specs::Characters::space, crate::specs::Characters::line_end))]
pub fn is_space(byte: u8) -> bool
    ensures { result ≡ space byte }
{
    byte == b' ' || byte == b'\t' || is_line_end(byte)
}

// CR or LF: a comment ends with it.
#[tactic(auto, unfolding(crate::specs::Characters::line_end))]
pub fn is_line_end(byte: u8) -> bool
    ensures { result ≡ line_end byte }
{
    byte == b'\r' || byte == b'\n'
}

#[tactic(auto, unfolding(crate::specs::Characters::digit))]
pub fn is_digit(byte: u8) -> bool
    ensures { result ≡ digit byte }
{
    byte.is_ascii_digit()
}

// The largest number of a header.
pub const MAX_FIELD: usize = 65535;

#[tactic(auto, unfolding(crate::specs::Limits::max_field))]
pub fn max_field() -> usize
    ensures { result ≡ max_field }
{
    MAX_FIELD
}

// A number with one digit more; the one after the largest that a header may have stands for every larger number.
#[tactic(auto, unfolding(crate::specs::Limits::max_field))]
pub fn with_digit(number: usize, byte: u8) -> usize
    ensures { result ≡ min (10 * number + digit_value byte) (suc max_field) }
{
    let more = max_field() + 1;
    if more <= number {
        return more;
    }
    (10 * number + digit_value(byte)).min(more)
}

// 0 of a byte below the digits.
pub fn digit_value(byte: u8) -> usize
    ensures { result ≡ digit_value byte }
{
    byte.saturating_sub(b'0') as usize
}
