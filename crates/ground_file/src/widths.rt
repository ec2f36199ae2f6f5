// The widths of a group's parts, and the codes that choose them.
ghost use Rattle.std.specs.Prelude.{◌≡◌, [], ◌∷◌};
ghost use Rattle.ground_file.specs.Groups.{width_of, code_of};
ghost use Rattle.ground_file.specs.Local.{code_for};

// The width that a code chooses; 28 for every code from 15 on.
pub fn width_of(code: usize) -> usize
    ensures { result ≡ width_of code }
{
    if code <= 11 {
        return code;
    }
    if code <= 12 {
        return 13;
    }
    if code <= 13 {
        return 16;
    }
    if code <= 14 {
        return 20;
    }
    28
}

// The code of the smallest width that holds numbers of so many bits.
fn code_for(bits: usize) -> usize
    ensures { result ≡ code_for bits }
{
    if bits <= 11 {
        return bits;
    }
    if bits <= 13 {
        return 12;
    }
    if bits <= 16 {
        return 13;
    }
    if bits <= 20 {
        return 14;
    }
    15
}

// The code of the smallest width that holds a number.
pub fn code_of(largest: u32) -> usize
    ensures { result ≡ code_of (largest ∷ []) }
{
    code_for((32 - u32::leading_zeros(largest)) as usize)
}
