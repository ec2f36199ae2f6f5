// A band row of n numbers, byte by byte as it comes in. The module is public for `Coming`, a part of a loader's numbers; what its functions require this crate
// meets.
ghost use Rattle.std.specs.Prelude.{◌≡◌, ◌+◌, ◌*◌, ◌/◌, ◌^◌, ◌≤◌, ◌<◌, min, true, pos, nat_abs, leb, length};
ghost use Rattle.numbers.specs.Signal.{at};
ghost use Rattle.numbers.specs.Tests.{every};
ghost use Rattle.ground_loader.specs.Coming.{part_size, between, opened, second, second_put, grouped, group_put, group_refused};
ghost use Rattle.ground_loader.specs.Coming.{seen_of, part_refused, stayed, deinterleaved, ends_first, part_stored, part_put};
ghost use Rattle.ground_loader.specs.Coming.{moved, next_of, put_on, InPart, Standing};
ghost use Rattle.ground_loader.specs.Loader.{is_over};
ghost use Rattle.ground_loader.specs.Local.{brought_within};

use crate::{parts, widths};
use areas::ranges;
use ground_file::widths::width_of;

// Stays: `phase` is a number, since a caller's state array may hold any, and question 1 is asked of it.
// What came of a row. `phase` is what the next byte belongs to: 0 a group's byte, 1 its first part, 2 its second. `done` numbers are stored. Of the part: its
// code, that of the part after it, how many of its numbers are not stored, the bits that came of these and how many they are, the largest number stored.
#[derive(Clone, Copy)]
pub struct Coming {
    pub phase: usize,
    pub done: usize,
    pub code: usize,
    pub next: usize,
    pub left: usize,
    pub low: u64,
    pub bits: usize,
    pub most: u64,
}

// What a part's byte brings: the bits that came, how many numbers are whole, and the largest with these.
#[derive(Clone, Copy)]
pub struct Seen {
    pub bits: u64,
    pub whole: usize,
    pub most: u64,
}

// Before a group's byte, or after the row's last.
pub fn before_group(done: usize) -> Coming
    ensures { result ≡ between done }
{
    Coming {
        phase: 0,
        done,
        code: 0,
        next: 0,
        left: 0,
        low: 0,
        bits: 0,
        most: 0,
    }
}

// Before a part's first byte.
fn before_part(phase: usize, done: usize, code: usize, next: usize, left: usize) -> Coming
    ensures { result ≡ opened phase done code next left }
{
    Coming {
        phase,
        done,
        code,
        next,
        left,
        low: 0,
        bits: 0,
        most: 0,
    }
}

// How many of the numbers from place `done` on are a part's.
fn part_size(n: usize, done: usize) -> usize
    requires { done ≤ n }
    ensures { result ≡ part_size n done }
{
    if 8 < n - done { 8 } else { n - done }
}

// What is next after a group's first part, at place `done`. A part of width 0 takes no byte.
fn second_of(n: usize, done: usize, code: usize) -> Coming
    requires { done ≤ n }
    ensures { result ≡ second n done code }
{
    let size = part_size(n, done);
    if 0 < code {
        return before_part(2, done, code, 0, size);
    }
    before_group(done + size)
}

fn put_second(n: usize, done: usize, code: usize, row: &mut [i32])
    requires { (done ≤ n) × (n ≤ length row.old) }
    ensures { at row.new ≡ second_put n done code (at row.old) }
{
    if 0 < code {
        return;
    }
    parts::store(0, 0, part_size(n, done), row, done);
}

// What is next after a group's byte.
fn group_of(n: usize, done: usize, byte: u8) -> Coming
    requires { done ≤ n }
    ensures { result ≡ grouped n done byte }
{
    let size = part_size(n, done);
    let high = (byte / 16) as usize;
    if 0 < byte % 16 {
        return before_part(1, done, (byte % 16) as usize, high, size);
    }
    second_of(n, done + size, high)
}

fn put_group(n: usize, done: usize, byte: u8, row: &mut [i32])
    requires { (done ≤ n) × (n ≤ length row.old) }
    ensures { at row.new ≡ group_put n done byte (at row.old) }
{
    if 0 < byte % 16 {
        return;
    }
    let size = part_size(n, done);
    parts::store(0, 0, size, row, done);
    put_second(n, done + size, (byte / 16) as usize, row);
}

// A group's byte with a width for a part without numbers?
fn group_refused(n: usize, done: usize, byte: u8) -> bool
    requires { done ≤ n }
    ensures { result ≡ group_refused n done byte }
{
    if byte < 16 {
        return false;
    }
    n - done <= 8
}

// How many numbers of w bits are whole.
fn whole_of(bits: usize, w: usize, left: usize) -> usize
    requires { 0 < w }
    ensures { result ≡ min (bits / w) left }
{
    let k = bits / w;
    if k < left { k } else { left }
}

// The bits of a byte above those that wait.
fn joined(low: u64, byte: u8, count: usize) -> u64
    requires { (count < 28) × (low < 2 ^ count) }
    ensures { result ≡ low + byte * 2 ^ count }
{
    low + ((byte as u64) << count)
}

fn see(c: Coming, n: usize, byte: u8) -> Seen
    requires { InPart n c }
    ensures { result ≡ seen_of c byte }
{
    let w = width_of(c.code);
    let bits = joined(c.low, byte, c.bits);
    let whole = whole_of(c.bits + 8, w, c.left);
    Seen {
        bits,
        whole,
        most: parts::largest(bits, w, whole, c.most),
    }
}

// A part's last byte where the width is not the smallest, or with bits past the last number?
fn part_refused(c: Coming, n: usize, byte: u8, s: Seen) -> bool
    requires { InPart n c × (s ≡ seen_of c byte) }
    ensures { result ≡ part_refused c s }
{
    if s.whole < c.left {
        return false;
    }
    if 0 < (s.bits >> (width_of(c.code) * s.whole)) {
        return true;
    }
    !widths::is_smallest(c.code, s.most)
}

// After a byte of a part that is not its last.
fn stay(c: Coming, n: usize, byte: u8, s: Seen) -> Coming
    requires { InPart n c × (s ≡ seen_of c byte) }
    ensures { result ≡ stayed c s }
{
    let used = width_of(c.code) * s.whole;
    Coming {
        phase: c.phase,
        done: c.done + s.whole,
        code: c.code,
        next: c.next,
        left: c.left - s.whole,
        low: s.bits >> used,
        bits: c.bits + 8 - used,
        most: s.most,
    }
}

// What is next after a byte of a part.
fn part_of(c: Coming, n: usize, byte: u8, s: Seen) -> Coming
    requires { InPart n c × (s ≡ seen_of c byte) }
    ensures { result ≡ deinterleaved n c s }
{
    if s.whole < c.left {
        return stay(c, n, byte, s);
    }
    if c.phase == 1 {
        return second_of(n, c.done + s.whole, c.next);
    }
    before_group(c.done + s.whole)
}

// Is a byte the last of a group's first part?
fn ends_first(c: Coming, s: Seen) -> bool
    ensures { result ≡ ends_first c s }
{
    if s.whole < c.left {
        return false;
    }
    c.phase == 1
}

fn put_numbers(c: Coming, n: usize, byte: u8, s: Seen, row: &mut [i32])
    requires { InPart n c × (s ≡ seen_of c byte) × (n ≤ length row.old) }
    ensures { at row.new ≡ part_stored c s (at row.old) }
{
    parts::store(s.bits, width_of(c.code), s.whole, row, c.done);
}

fn put_part(c: Coming, n: usize, byte: u8, s: Seen, row: &mut [i32])
    requires { InPart n c × (s ≡ seen_of c byte) × (n ≤ length row.old) }
    ensures { at row.new ≡ part_put n c s (at row.old) }
{
    let over = ends_first(c, s);
    let end = c.done + s.whole;
    let next = c.next;
    put_numbers(c, n, byte, s, row);
    if over {
        put_second(n, end, next, row);
    }
}

fn group_next(c: Coming, n: usize, byte: u8) -> Option<Coming>
    requires { (c.phase ≡ 0) × (c.done < n) }
    ensures { result ≡ next_of n c byte }
{
    if group_refused(n, c.done, byte) {
        return None;
    }
    Some(group_of(n, c.done, byte))
}

fn part_next(c: Coming, n: usize, byte: u8) -> Option<Coming>
    requires { (0 < c.phase) × InPart n c }
    ensures { result ≡ next_of n c byte }
{
    let s = see(c, n, byte);
    if part_refused(c, n, byte, s) {
        return None;
    }
    Some(part_of(c, n, byte, s))
}

// What came with the next byte; nothing where no row has it there.
pub fn next_of(c: Coming, n: usize, byte: u8) -> Option<Coming>
    requires { Standing n c }
    ensures { result ≡ next_of n c byte }
{
    if c.phase == 0 {
        return group_next(c, n, byte);
    }
    part_next(c, n, byte)
}

// The numbers that a byte makes whole, stored.
pub fn put_byte(c: Coming, n: usize, byte: u8, row: &mut [i32])
    requires { Standing n c × (n ≤ length row.old) }
    ensures { at row.new ≡ put_on n c byte (at row.old) }
{
    if c.phase == 0 {
        put_group(n, c.done, byte, row);
        return;
    }
    put_part(c, n, byte, see(c, n, byte), row);
}

// Is each value that a byte brings at most `most` in size? A group's byte brings zeros.
fn brings_within(c: Coming, n: usize, byte: u8, most: u64) -> bool
    requires { Standing n c }
    ensures { result ≡ brought_within c byte most }
{
    if c.phase == 0 {
        return true;
    }
    let s = see(c, n, byte);
    let x = parts::largest(s.bits, width_of(c.code), s.whole, 0);
    (x + 1) / 2 <= most
}

// With the row's last byte: is each of its values at most `most` in size? Those stored, and those that the byte brings.
pub fn all_within(c: Coming, n: usize, byte: u8, row: &[i32], most: i32) -> bool
    requires { Standing n c × (n ≤ length row.now) × (most ≡ pos (nat_abs most)) × (is_over n (moved n c byte) ≡ true) }
    ensures { result ≡ every n (λ i. leb (nat_abs (put_on n c byte (at row.now) i)) (nat_abs most)) }
{
    let done = c.done;
    if !ranges::all_between(&row[..done], -most, most) {
        return false;
    }
    brings_within(c, n, byte, most as u64)
}
