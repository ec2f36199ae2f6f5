// A row of heights, two bytes each, the most significant first, into an area of any length: what does not fit is written by a further call, from where the
// last one ended.
ghost use Rattle.std.specs.Prelude.{◌≡◌, ◌+◌, ◌-◌, ◌*◌, ◌/◌, ◌%◌, ◌<◌, ◌^◌, min, length, drop};
ghost use Rattle.std.proofs.Math.Seq.{paste};
ghost use Rattle.numbers.specs.Signal.{pick};
ghost use Rattle.picture.specs.Form.{row_bytes};

use text::bytes;

// The most significant byte of a height, or the other one.
fn height_byte(height: u16, low: bool) -> u8
    ensures { result ≡ pick low (height % 256) (height / 256) }
{
    if low {
        (height % 256) as u8
    } else {
        (height / 256) as u8
    }
}

// How many bytes a row of heights has.
fn row_bytes(heights: &[u16]) -> usize
    ensures { result ≡ 2 * length heights.now }
{
    2 * heights.len()
}

// The bytes of a row of heights from place `from` on, as many as there are and as the area has room for.
pub fn row(heights: &[u16], from: usize, out: &mut [u8]) -> usize
    ensures value { result ≡ min (2 * length heights.now - from) (length out.old) }
    ensures out_after { out.new ≡ paste out.old 0 (drop from (row_bytes heights.now)) result }
    ensures result_bound { from + result < 2 ^ 64 }
{
    let n = bytes::some(row_bytes(heights), from, out.len());
    for i in 0..n {
        let place = from + i;
        out[i] = height_byte(heights[place / 2], place % 2 == 1);
    }
    n
}
