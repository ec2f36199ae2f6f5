// A file in pieces: the header, each group of a row, the checksum. The module is private, as `parts` is.
ghost use Rattle.std.specs.Prelude.{◌+◌, ◌-◌, ◌≤◌, ◌<◌, min, length};
ghost use Rattle.numbers.specs.Signal.{at};
ghost use Rattle.text.specs.Text.{Wrote};
ghost use Rattle.ground_file.specs.Groups.{bytes_of, group_of};
ghost use Rattle.ground_file.specs.File.{header_of, listed};
ghost use Rattle.ground_file.specs.Values.{kept};

use crate::{groups, values};
use text::bytes;
use wavelet::shape::Shape;

// The header at the front of an area.
pub fn put_header(s: Shape, step: usize, out: &mut [u8]) -> usize
    requires { (57 ≤ length out.old) × (s.filter < 256) × (s.levels < 256) × (step < 256) }
    ensures { Wrote (header_of s step) 0 result out.old out.new }
{
    let x = s.x as usize;
    let y = s.y as usize;
    let head = [
        137u8,
        71,
        78,
        68,
        13,
        10,
        26,
        10,
        1,
        s.filter as u8,
        s.levels as u8,
        step as u8,
        (x % 256) as u8,
        (x / 256 % 256) as u8,
        (y % 256) as u8,
        (y / 256 % 256) as u8,
        (s.width % 256) as u8,
        (s.width / 256 % 256) as u8,
        (s.height % 256) as u8,
        (s.height / 256 % 256) as u8,
        (s.height / 256 / 256 % 256) as u8,
        (s.height / 256 / 256 / 256 % 256) as u8,
        0,
        0,
    ];
    bytes::put_bytes(&head, out, 0)
}

// The checksum.
pub fn put_sum(sum: u64, out: &mut [u8]) -> usize
    requires { 57 ≤ length out.old }
    ensures { Wrote (bytes_of 4 sum) 0 result out.old out.new }
{
    let four = [
        (sum % 256) as u8,
        (sum / 256 % 256) as u8,
        (sum / 256 / 256 % 256) as u8,
        (sum / 256 / 256 / 256 % 256) as u8,
    ];
    bytes::put_bytes(&four, out, 0)
}

// The group of a row from number `from` on, of what is left there.
pub fn put_group(row: &[i32], from: usize, step: u32, out: &mut [u8]) -> usize
    requires { (57 ≤ length out.old) × (1 ≤ step) }
    ensures { Wrote (group_of (listed (min (length row.now - from) 16) (λ i. kept step (at row.now (from + i))))) 0 result
        out.old out.new }
{
    let mut few = [0u32; 16];
    let n = bytes::some(row.len(), from, 16);
    values::fill(row, from, n, step, &mut few);
    groups::put(&few[..n], out, 0)
}
