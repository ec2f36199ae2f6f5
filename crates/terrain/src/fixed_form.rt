// The fixed form of a picture: its header and its rows. What the calls say is `picture`'s: its definitions give the bytes.
ghost use Rattle.std.specs.Prelude.{◌≡◌, ◌-◌, ◌*◌, min, length, drop};
ghost use Rattle.std.proofs.Math.Seq.{paste};
ghost use Rattle.picture.specs.Form.{row_bytes, HeadPut, answered};

use picture::{form, rows};

// The header's bytes from place `from` on, at the front of `out`. The questions are 2 and 3.
pub fn terrain_picture_head(
    width: usize,
    height: usize,
    from: usize,
    out: &mut [u8],
    written: &mut usize,
) -> u32
    ensures head_put { HeadPut width height from out.old out.new (answered result written.new) }
    ensures written_unchanged { (result ≡ 0 → ⊥) → written.new ≡ written.old }
{
    refusal::code(form::head_told(width, height, from, out, written)) as u32
}

// A row's bytes from place `from` on, at the front of `out`: how many were written.
pub fn terrain_picture_row(heights: &[u16], from: usize, out: &mut [u8]) -> usize
    ensures value { result ≡ min (2 * length heights.now - from) (length out.old) }
    ensures out_after { out.new ≡ paste out.old 0 (drop from (row_bytes heights.now)) result }
{
    rows::row(heights, from, out)
}
