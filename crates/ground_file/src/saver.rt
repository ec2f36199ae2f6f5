// Saving: a plane's file, written into areas of any length, one call after the other. The plane stands in memory.
ghost use Rattle.std.specs.Prelude.{◌≡◌, ltb, eqb, ◌+◌, ◌-◌, ◌*◌, ◌≤◌, ◌<◌, min, length};
ghost use Rattle.numbers.specs.Signal.{pick};
ghost use Rattle.reader_order.specs.Order.{next_place};
ghost use Rattle.std.proofs.Math.Seq.{paste};
ghost use Rattle.text.specs.Text.{Wrote};
ghost use Rattle.ground_file.specs.Saving.{saver_at, row_of, step_of, piece_of, at_row, onward, start_of, rest_of, moved, begins, row_fits, row_divides};
ghost use Rattle.ground_file.specs.Saving.{row_number};
ghost use Rattle.ground_file.specs.Saving.{Inside, Ran, plain, set_up_number, fresh, saver_fits, save_number, Saves, of_saved};
ghost use Rattle.refusal.specs.Numbers.{answer};

use crate::{pieces, sums, values};
use areas::ranges;
use reader_order::Place;
use refusal::Refusal;
use text::bytes;
use wavelet::shape::Shape;
use wavelet::{limits, view};

// Stays: `phase` is a number, since a caller's state array may hold any, and question 1 is asked of it.
// A plane that is being saved. `phase` is the piece that is written: 0 the header, 1 group `group` of the row at `place`, 2 the checksum, 3 none; `part` bytes
// of it are written, and `sum` is that of the pieces before it.
#[derive(Clone, Copy)]
pub struct Saver {
    pub shape: Shape,
    pub step: usize,
    pub place: Place,
    pub group: usize,
    pub part: usize,
    pub sum: u64,
    pub phase: usize,
}

// A saver, and the place in the area after what it wrote: how many bytes a call wrote.
#[derive(Clone, Copy)]
pub struct Turn {
    pub saver: Saver,
    pub at: usize,
}

pub const MAX_STEP: usize = 64;

// The row at the saver's place; none past the last.
fn row_of<'a>(s: Saver, plane: &'a [i32]) -> &'a [i32]
    ensures { result.now ≡ row_of s plane.now }
{
    let row = reader_order::row_at(s.shape, s.place);
    view::band_row(plane, s.shape, s.place.level, s.place.band, row)
}

// What the values of its band are divided by.
fn step_of(s: Saver) -> u32
    requires { s.step < 256 }
    ensures { result ≡ step_of s }
{
    if s.place.band == 0 { 1 } else { s.step as u32 }
}

// The piece at the front of an area; answers how long it is.
fn put_piece(s: Saver, row: &[i32], area: &mut [u8]) -> usize
    requires { Inside s × (57 ≤ length area.old) }
    ensures { Wrote (piece_of s row.now) 0 result area.old area.new }
{
    if s.phase == 0 {
        return pieces::put_header(s.shape, s.step, area);
    }
    if s.phase == 1 {
        return pieces::put_group(row, 16 * s.group, step_of(s), area);
    }
    pieces::put_sum(s.sum, area)
}

fn phase_of(level: usize) -> usize
    ensures { result ≡ pick (eqb level 0) 2 1 }
{
    if level == 0 { 2 } else { 1 }
}

// The row at a place, from its first group on; the checksum where there is none.
fn at_row(s: Saver, place: Place, sum: u64) -> Saver
    ensures { result ≡ at_row s place sum }
{
    Saver {
        place,
        group: 0,
        part: 0,
        sum,
        phase: phase_of(place.level),
        ..s
    }
}

// After a group of a row of so many values.
fn past_group(s: Saver, length: usize, sum: u64) -> Saver
    requires { Inside s }
    ensures { result ≡ pick (ltb (16 * (s.group + 1)) length) (saver_at s.shape s.step s.place (s.group + 1) 0 sum 1)
        (at_row s (next_place s.shape s.place) sum) }
{
    let group = s.group + 1;
    if 16 * group < length {
        return Saver {
            group,
            part: 0,
            sum,
            phase: 1,
            ..s
        };
    }
    at_row(s, reader_order::next(s.shape, s.place), sum)
}

// After the piece.
fn go_on(s: Saver, length: usize, sum: u64) -> Saver
    requires { Inside s }
    ensures { result ≡ onward s length sum }
{
    if s.phase == 0 {
        return at_row(s, reader_order::first(s.shape), sum);
    }
    if s.phase == 1 {
        return past_group(s, length, sum);
    }
    Saver {
        group: 0,
        part: 0,
        sum: 0,
        phase: 3,
        ..s
    }
}

// Is a row to be begun?
fn is_first(s: Saver) -> bool
    ensures { result ≡ begins s }
{
    if s.phase != 1 {
        return false;
    }
    if s.group != 0 {
        return false;
    }
    s.part == 0
}

// Is each value of the row in its level's range?
fn in_range(s: Saver, row: &[i32]) -> bool
    ensures { result ≡ row_fits s row.now }
{
    let shape = s.shape;
    let most = filters::range_of(shape.filter as usize, s.place.level);
    ranges::all_between(row, -most, most)
}

// Is each a multiple of the step?
fn divides(s: Saver, row: &[i32]) -> bool
    requires { Inside s }
    ensures { result ≡ row_divides s row.now }
{
    let step = step_of(s);
    if step == 1 {
        return true;
    }
    values::multiples(row, step)
}

// 7 or 22 where a row is to be begun that no file has.
fn row_question(s: Saver, row: &[i32]) -> Result<(), Refusal>
    requires { Inside s }
    ensures { answer result ≡ row_number s row.now }
{
    if !is_first(s) {
        return Ok(());
    }
    if !in_range(s, row) {
        return Err(Refusal::OutOfRange);
    }
    if !divides(s, row) {
        return Err(Refusal::NoFile);
    }
    Ok(())
}

// The first byte of a piece of n bytes that is not written.
fn start_of(part: usize, n: usize) -> usize
    requires { 0 < n }
    ensures { result ≡ start_of part n }
{
    if part < n { part } else { n - 1 }
}

// As much of the piece as there is room for from place `at` on.
fn write_some(s: Saver, row: &[i32], out: &mut [u8], at: usize) -> Turn
    requires { Inside s × (s.phase < 3) × (at < length out.old) }
    ensures saver { (result.saver ≡ moved s row.now (min (length (rest_of s row.now)) (length out.old - at))) ×
        (result.at ≡ at + min (length (rest_of s row.now)) (length out.old - at)) }
    ensures area { out.new ≡
        paste out.old at (rest_of s row.now) (min (length (rest_of s row.now)) (length out.old - at)) }
{
    let mut area = [0u8; 57];
    let n = put_piece(s, row, &mut area);
    let from = start_of(s.part, n);
    let m = bytes::copy(&area[..n], from, out, at);
    if from + m < n {
        return Turn {
            saver: Saver {
                part: from + m,
                ..s
            },
            at: at + m,
        };
    }
    let sum = sums::sum_of(s.sum, &area[..n]);
    Turn {
        saver: go_on(s, row.len(), sum),
        at: at + m,
    }
}

// Stays: a `while`, since a turn goes on by as many bytes as it wrote.
// Piece after piece, until the area is full, the file is over or a row is to be begun that no file has.
fn run(s: Saver, plane: &[i32], out: &mut [u8]) -> Result<Turn, Refusal>
    requires { Inside s }
    ensures { Ran s plane.now out.old out.new (of_saved s result) }
{
    let mut turn = Turn { saver: s, at: 0 };
    while turn.at < out.len() && turn.saver.phase < 3 {
        let row = row_of(turn.saver, plane);
        if let Err(why) = row_question(turn.saver, row) {
            return if turn.at == 0 { Err(why) } else { Ok(turn) };
        }
        turn = write_some(turn.saver, row, out, turn.at);
    }
    Ok(turn)
}

// Is a step of 1, or of a map by the 5/3 at origin 0?
fn is_plain(s: Shape, step: usize) -> bool
    ensures { result ≡ plain s step }
{
    if step == 1 {
        return true;
    }
    if s.x != 0 {
        return false;
    }
    if s.y != 0 {
        return false;
    }
    s.filter == 0
}

// Questions 2, 3, 18, 4, 20 and 22 of a shape and a step.
pub fn set_up_question(s: Shape, step: usize) -> Result<(), Refusal>
    ensures { answer result ≡ set_up_number s step }
{
    let filter = s.filter as usize;
    if !limits::is_within(s.width, limits::MAX_WIDTH) {
        return Err(Refusal::BadWidth);
    }
    if !limits::is_within(s.height, limits::MAX_HEIGHT) {
        return Err(Refusal::BadHeight);
    }
    if !filters::is_filter(filter) {
        return Err(Refusal::BadFilter);
    }
    if !limits::is_within(s.levels, filters::most_levels(filter)) {
        return Err(Refusal::BadLevels);
    }
    if !limits::is_within(step, MAX_STEP) {
        return Err(Refusal::BadStep);
    }
    if !is_plain(s, step) {
        return Err(Refusal::NoFile);
    }
    Ok(())
}

// A saver that has written nothing.
pub fn begin(s: Shape, step: usize) -> Saver
    ensures { result ≡ fresh s step }
{
    Saver {
        shape: s,
        step,
        place: Place {
            drawn: 0,
            level: 0,
            set: 0,
            band: 0,
        },
        group: 0,
        part: 0,
        sum: 0,
        phase: 0,
    }
}

// Are a saver's numbers in their ranges?
fn counts_fit(s: Saver) -> bool
    ensures { result ≡ saver_fits s }
{
    if set_up_question(s.shape, s.step).is_err() {
        return false;
    }
    if 3 < s.phase {
        return false;
    }
    if limits::MAX_WIDTH < s.group {
        return false;
    }
    if 57 < s.part {
        return false;
    }
    s.sum < sums::PRIME
}

// Questions 1 and 5, of a plane of n numbers.
fn question(s: Saver, n: usize) -> Result<(), Refusal>
    ensures { answer result ≡ save_number s n }
{
    if !counts_fit(s) {
        return Err(Refusal::BadState);
    }
    if n < s.shape.width * s.shape.height {
        return Err(Refusal::AreaShort);
    }
    Ok(())
}

// The next bytes of the plane's file, as many as there is room for. The questions are 1 and 5; before a row is begun 7 and 22: the call ends before that row,
// and is turned away if it has written nothing. What is turned away has written nothing.
pub fn save(s: Saver, plane: &[i32], out: &mut [u8]) -> Result<Turn, Refusal>
    ensures { Saves s plane.now out.old out.new (of_saved s result) }
{
    question(s, plane.len())?;
    run(s, plane, out)
}
