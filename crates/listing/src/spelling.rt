// The parts of a line as text, and as much of a part written as there is room for. The module is private: only this crate, which meets what is
// required, can call it.
ghost use Rattle.std.specs.Prelude.{◌≡◌, ◌≤◌, ◌+◌, ◌-◌, length};
ghost use Rattle.numbers.specs.Signal.{at};
ghost use Rattle.text.specs.Text.{Wrote};
ghost use Rattle.listing.specs.Parts.{first, second, head_text, size_text, value_text, part_text, start_of, Spelled};

use crate::line::Line;
use text::{bytes, decimal, refusal};

// How much of a part was written, up to where, and how much of it is left.
#[derive(Clone, Copy)]
pub struct Spelt {
    pub written: usize,
    pub done: usize,
    pub rest: usize,
}

fn first_letter(band: usize) -> u8
    ensures { result ≡ first band }
{
    if band % 2 == 1 { b'H' } else { b'L' }
}

fn second_letter(band: usize) -> u8
    ensures { result ≡ second band }
{
    if 1 < band { b'H' } else { b'L' }
}

fn put_size(line: Line, area: &mut [u8]) -> usize
    requires { length area.old ≡ 64 }
    ensures { Wrote (size_text line) 0 result area.old area.new }
{
    let width = decimal::put_number(line.length, area, 0);
    let gap = bytes::put_byte(b' ', area, width);
    let height = decimal::put_number(line.row, area, gap);
    let next = bytes::put_byte(b' ', area, height);
    let levels = decimal::put_number(line.level, area, next);
    bytes::put_byte(b'\n', area, levels)
}

fn put_head(line: Line, area: &mut [u8]) -> usize
    requires { length area.old ≡ 64 }
    ensures { Wrote (head_text line) 0 result area.old area.new }
{
    let band = [
        b' ',
        first_letter(line.band),
        second_letter(line.band),
        b' ',
    ];
    let level = decimal::put_number(line.level, area, 0);
    let row = bytes::put_bytes(&band, area, level);
    decimal::put_number(line.row, area, row)
}

fn put_value(line: Line, row: &[i32], area: &mut [u8]) -> usize
    requires { length area.old ≡ 64 }
    ensures { Wrote (value_text (length row.now) (at row.now) line) 0 result area.old area.new }
{
    let value = line.value;
    if line.length <= value {
        return bytes::put_byte(b'\n', area, 0);
    }
    if row.len() <= value {
        return bytes::put_byte(b'\n', area, 0);
    }
    let place = bytes::put_byte(b' ', area, 0);
    decimal::put_integer(row[value], area, place)
}

// The part's bytes, at the front of the area; answers where they end.
fn put_part(line: Line, row: &[i32], area: &mut [u8]) -> usize
    requires { length area.old ≡ 64 }
    ensures { Wrote (part_text (length row.now) (at row.now) line) 0 result area.old area.new }
{
    let part = line.part;
    if part == 1 {
        return put_size(line, area);
    }
    if part == 2 {
        return refusal::put_refused(line.row, area, 0);
    }
    if part == 3 {
        return put_head(line, area);
    }
    put_value(line, row, area)
}

// Where a text goes on, `done` bytes of it being written.
fn resume(length: usize, done: usize) -> usize
    ensures { result ≡ start_of length done }
{
    if done < length { done } else { 0 }
}

// Writes as much of the line's part as there is room for, from `place` of out on.
pub fn spell(line: Line, row: &[i32], out: &mut [u8], place: usize) -> Spelt
    requires { place ≤ length out.old }
    ensures { Spelled (part_text (length row.now) (at row.now) line) line.done place out.old out.new result }
{
    let mut area = [0u8; 64];
    let end = put_part(line, row, &mut area);
    let from = resume(end, line.done);
    let n = bytes::copy(&area[..end], from, out, place);
    Spelt {
        written: n,
        done: from + n,
        rest: end - from - n,
    }
}
