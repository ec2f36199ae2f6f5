// What is being written: the header, a row of heights, or the line of a refusal, and as much of it as there is room for. The module is private: only
// this crate, which meets what is required, can call it.
ghost use Rattle.std.specs.Prelude.{◌≡◌, ◌+◌, ◌-◌, ◌<◌, ◌^◌, min, length, drop};
ghost use Rattle.std.proofs.Math.Seq.{paste};
ghost use Rattle.text.specs.Refusal.{refused_line};
ghost use Rattle.picture.specs.Machine.{part_text};

use crate::{heads, rows};
use text::{bytes, refusal};

// Stays: `kind` is a number, since `part_text` and the contracts that cite it speak of every one.
#[derive(Clone, Copy)]
pub struct Part {
    // 0 nothing, 1 the header, 2 a row, 3 a refusal
    pub kind: usize,
    pub number: usize,
    // bytes of it that are written
    pub done: usize,
}

// The line of a refusal from place `from` on, as many bytes as there is room for.
fn put_refused(number: usize, from: usize, out: &mut [u8]) -> usize
    ensures value { result ≡ min (length (refused_line number) - from) (length out.old) }
    ensures out_after { out.new ≡ paste out.old 0 (drop from (refused_line number)) result }
{
    let mut area = [0u8; 64];
    let end = refusal::put_refused(number, &mut area, 0);
    bytes::copy(&area[..end], from, out, 0)
}

// As many bytes of a part as there is room for, from where it was left.
pub fn put_part(
    kind: usize,
    number: usize,
    done: usize,
    width: usize,
    height: usize,
    row: &[u16],
    out: &mut [u8],
) -> usize
    ensures value { result ≡ min (length (part_text width height row.now kind number) - done) (length out.old) }
    ensures out_after { out.new ≡ paste out.old 0 (drop done (part_text width height row.now kind number)) result }
    ensures result_bound { done + result < 2 ^ 64 }
{
    if kind == 1 {
        return heads::put_head(width, height, done, out);
    }
    if kind == 2 {
        let end = bytes::least(width, row.len());
        return rows::row(&row[..end], done, out);
    }
    if kind == 3 {
        return put_refused(number, done, out);
    }
    0
}
