// The header's bytes. The module is private: only this crate, which meets what is required, can call it.
ghost use Rattle.std.specs.Prelude.{◌≡◌, ◌-◌, min, length, drop};
ghost use Rattle.std.proofs.Math.Seq.{paste};
ghost use Rattle.text.specs.Text.{Wrote};
ghost use Rattle.picture.specs.Form.{form_largest, form_head};

use text::{bytes, decimal};

const LARGEST: usize = 65535;

// The constant, pinned to the definition's number.
fn largest() -> usize
    ensures { result ≡ form_largest }
{
    LARGEST
}

// The header at the front of an area; answers where it ends.
fn head_text(width: usize, height: usize, area: &mut [u8]) -> usize
    requires { length area.old ≡ 80 }
    ensures { Wrote (form_head width height) 0 result area.old area.new }
{
    let start = bytes::put_bytes(b"P5\n", area, 0);
    let first = decimal::put_number(width, area, start);
    let gap = bytes::put_byte(b' ', area, first);
    let second = decimal::put_number(height, area, gap);
    let line = bytes::put_byte(b'\n', area, second);
    let third = decimal::put_number(largest(), area, line);
    bytes::put_byte(b'\n', area, third)
}

// The header from place `from` on, as many bytes as there is room for.
pub fn put_head(width: usize, height: usize, from: usize, out: &mut [u8]) -> usize
    ensures value { result ≡ min (length (form_head width height) - from) (length out.old) }
    ensures out_after { out.new ≡ paste out.old 0 (drop from (form_head width height)) result }
{
    let mut area = [0u8; 80];
    let end = head_text(width, height, &mut area);
    bytes::copy(&area[..end], from, out, 0)
}
