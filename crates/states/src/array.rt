// What the state arrays share: the caller's numbers, sixteen for writer and reader, thirty-two for a saver: a kind, the counts, and 0 in the rest.
ghost use Rattle.std.specs.Prelude.{◌≡◌, length};
ghost use Rattle.states.specs.States.{flag, zero_to};

// Is every number 0 from place `from` on? All are looked at: the compiler then tests them together.
pub fn zero_from<const N: usize>(s: &[u64; N], from: usize) -> bool
    ensures { result ≡ zero_to N from s.now }
{
    let mut zero = true;
    for i in from..N {
        if s[i] != 0 {
            zero = false;
        }
    }
    zero
}

// An array has sixteen numbers: what a reference to it says nothing of. It costs nothing, since nothing is done with the copy.
pub fn sized(s: [u64; 16])
    ensures { length s ≡ 16 }
{}

// A yes or no as a number.
pub fn flag_of(yes: bool) -> u64
    ensures { result ≡ flag yes }
{
    if yes { 1 } else { 0 }
}
