// The header of a file, from its first 24 bytes: a loader's caller lends areas of that shape.
ghost use Rattle.std.specs.Prelude.{◌≡◌, ◌+◌, ◌*◌, ◌^◌, ◌≤◌, ◌<◌, length, IfOk};
ghost use Rattle.refusal.specs.Numbers.{answer};
ghost use Rattle.ground_file.specs.Header.{number_in, shape_in, step_in, is_header, roundable, header_number};

use crate::saver;
use refusal::Refusal;
use wavelet::shape::Shape;

// A map's shape and the step of its file.
#[derive(Clone, Copy)]
pub struct Header {
    pub shape: Shape,
    pub step: usize,
}

const SIGNATURE: u64 = 727905341870589833;

// n bytes from byte `from` on as a number, the first lowest.
fn number_in(bytes: &[u8], from: usize, n: usize) -> u64
    requires { (from + n ≤ length bytes.now) × (n ≤ 8) }
    ensures { (result ≡ number_in bytes.now from n) × (result < 2 ^ (8 * n)) }
{
    let mut r = 0;
    for i in (0..n).rev() {
        r = 256 * r + bytes[from + i] as u64;
    }
    r
}

// Are the first eight bytes, the version and the last two bytes those of a file?
fn is_header(bytes: &[u8]) -> bool
    requires { 24 ≤ length bytes.now }
    ensures { result ≡ is_header bytes.now }
{
    if number_in(bytes, 0, 8) != SIGNATURE {
        return false;
    }
    if number_in(bytes, 8, 1) != 1 {
        return false;
    }
    number_in(bytes, 22, 2) == 0
}

// Is it not a step above 1 with an origin or the 9/7?
fn is_roundable(s: Shape, step: usize) -> bool
    ensures { result ≡ roundable s step }
{
    if step <= 1 {
        return true;
    }
    if s.x != 0 {
        return false;
    }
    if s.y != 0 {
        return false;
    }
    s.filter != 1
}

fn shape_in(bytes: &[u8]) -> Shape
    requires { 24 ≤ length bytes.now }
    ensures { result ≡ shape_in bytes.now }
{
    Shape {
        width: number_in(bytes, 16, 2) as usize,
        height: number_in(bytes, 18, 4) as usize,
        levels: number_in(bytes, 10, 1) as usize,
        x: number_in(bytes, 12, 2) as u16,
        y: number_in(bytes, 14, 2) as u16,
        filter: number_in(bytes, 9, 1) as u32,
    }
}

// 22, then 2, 3, 18, 4 and 20 of what the bytes say.
fn question(bytes: &[u8], head: Header) -> Result<(), Refusal>
    requires { (24 ≤ length bytes.now) × (head.shape ≡ shape_in bytes.now) × (head.step ≡ step_in bytes.now) }
    ensures { answer result ≡ header_number bytes.now }
{
    if !is_header(bytes) {
        return Err(Refusal::NoFile);
    }
    if !is_roundable(head.shape, head.step) {
        return Err(Refusal::NoFile);
    }
    saver::set_up_question(head.shape, head.step)
}

// What the first 24 bytes of a file say. The questions are 5, 22, 2, 3, 18, 4 and 20.
pub fn read(bytes: &[u8]) -> Result<Header, Refusal>
    ensures value { answer result ≡ header_number bytes.now }
    ensures header { IfOk result (λ h. (h.shape ≡ shape_in bytes.now) × (h.step ≡ step_in bytes.now)) }
{
    if bytes.len() < 24 {
        return Err(Refusal::AreaShort);
    }
    let head = Header {
        shape: shape_in(bytes),
        step: number_in(bytes, 11, 1) as usize,
    };
    question(bytes, head)?;
    Ok(head)
}
