// Bytes, into a lent area.
ghost use Rattle.std.specs.Prelude.{◌≡◌, [], ◌∷◌, ◌≤◌, ◌+◌, ◌-◌, min, leb, length, drop};
ghost use Rattle.std.proofs.Math.Seq.{paste};
ghost use Rattle.text.specs.Text.{Puts};

pub fn least(a: usize, b: usize) -> usize
    ensures { result ≡ min a b }
{
    a.min(b)
}

// The least of what is left of a text after place `from` and of the room.
pub fn some(length: usize, from: usize, room: usize) -> usize
    ensures { result ≡ min (length - from) room }
{
    length.saturating_sub(from).min(room)
}

// Do n bytes fit from place `at` on?
pub fn has_room(length: usize, at: usize, n: usize) -> bool
    ensures { result ≡ leb (at + n) length }
{
    if length < n {
        return false;
    }
    at <= length - n
}

// Copies n bytes of text from place `from` on to out from place `at` on.
fn copy_some(text: &[u8], from: usize, out: &mut [u8], at: usize, n: usize)
    requires { (from + n ≤ length text.now) × (at + n ≤ length out.old) }
    ensures { out.new ≡ paste out.old at (drop from text.now) n }
{
    for i in 0..n {
        out[at + i] = text[from + i];
    }
}

// The bytes of text from place `from` on to out from place `at` on, as many as there are and as there is room for; answers how many.
pub fn copy(text: &[u8], from: usize, out: &mut [u8], at: usize) -> usize
    ensures value { result ≡ min (length text.now - from) (length out.old - at) }
    ensures out_after { out.new ≡ paste out.old at (drop from text.now) result }
{
    if out.len() < at {
        return 0;
    }
    let n = some(text.len(), from, out.len() - at);
    if 0 < n {
        copy_some(text, from, out, at, n);
    }
    n
}

// One byte; answers the place after it.
pub fn put_byte(byte: u8, out: &mut [u8], at: usize) -> usize
    ensures { Puts (byte ∷ []) at result out.old out.new }
{
    if out.len() <= at {
        return at;
    }
    out[at] = byte;
    at + 1
}

// A text whole, or nothing of it; answers the place after it.
pub fn put_bytes(text: &[u8], out: &mut [u8], at: usize) -> usize
    ensures { Puts text.now at result out.old out.new }
{
    let n = text.len();
    if has_room(out.len(), at, n) {
        copy_some(text, 0, out, at, n);
        return at + n;
    }
    at
}
