// The rewriting: bytes of a PGM in, bytes of the fixed form out. Each row is written when it is whole, before more input is read.
ghost use Rattle.std.specs.Prelude.{◌≡◌, true, false, ◌+◌, ◌*◌, ◌<◌, ◌≤◌, eqb, length, IfSome, IfNone};
ghost use Rattle.numbers.specs.Signal.{pick};
ghost use Rattle.pgm.specs.Limits.{max_picture_width};
ghost use Rattle.text.specs.Moves.{Went, Stops};
ghost use Rattle.picture.specs.Machine.{part_of, started, moved, settled, done_on, row_part, begun_on, kept, height_kept, byte_read, Move, busy_on};
ghost use Rattle.picture.specs.Machine.{Reads, Writes, quiet, end_of};
ghost use Rattle.refusal.specs.Numbers.{number};

use crate::parts;
use crate::parts::Part;
use pgm::input::{Incomplete, Input, Step};
use pgm::{limits, runs};
use refusal::Refusal;
use text::bytes;

#[derive(Clone, Copy)]
pub struct Rewriting {
    pub input: Input,
    // the picture's, once its header is read
    pub width: usize,
    pub height: usize,
    // heights of the begun row that stand in the row area
    pub filled: usize,
    pub part: Part,
}

// Nothing, the header or a row.
fn part_of(kind: usize) -> Part
    ensures { result ≡ part_of kind 0 }
{
    Part {
        kind,
        number: 0,
        done: 0,
    }
}

fn refused(why: Refusal) -> Part
    ensures { result ≡ part_of 3 (number why) }
{
    Part {
        number: why.number() as usize,
        ..part_of(3)
    }
}

#[tactic(auto, unfolding(crate::specs::Machine::row_part))]
fn row_part(filled: usize, width: usize) -> Part
    ensures { result ≡ row_part filled width }
{
    part_of(if filled == width { 2 } else { 0 })
}

// After a row the next one begins.
fn after_part(kind: usize, filled: usize) -> usize
    ensures { result ≡ pick (eqb kind 2) 0 filled }
{
    if kind == 2 { 0 } else { filled }
}

// A height goes to its place in the row area; a state that was made up may have none.
#[tactic(auto, unfolding(crate::specs::Machine::height_kept))]
fn keep(rewriting: Rewriting, input: Input, height: u16, row: &mut [u16]) -> Rewriting
    ensures value { result ≡ (height_kept rewriting input height row.old).state }
    ensures row_after { row.new ≡ (height_kept rewriting input height row.old).row }
{
    let filled = rewriting.filled;
    if row.len() <= filled {
        return rewriting.moved(input.at_phase(4), filled, refused(Refusal::AreaShort));
    }
    row[filled] = height;
    rewriting.moved(input, filled + 1, row_part(filled + 1, rewriting.width))
}

impl Rewriting {
    // How many heights the row area has to hold so that no picture read is refused.
    pub const ROW: usize = limits::MAX_WIDTH;

    #[tactic(auto, unfolding(pgm::specs::Limits::max_picture_width))]
    pub fn row_length() -> usize
        ensures { result ≡ max_picture_width }
    {
        Rewriting::ROW
    }

    pub fn start() -> Self
        ensures { result ≡ started }
    {
        Rewriting {
            input: Input::start(2),
            width: 0,
            height: 0,
            filled: 0,
            part: part_of(0),
        }
    }

    // The size stays.
    fn moved(self, input: Input, filled: usize, part: Part) -> Self
        ensures { result ≡ moved self input filled part }
    {
        Rewriting {
            input,
            filled,
            part,
            ..self
        }
    }

    // The part is written.
    #[tactic(auto, unfolding(crate::specs::Machine::settled))]
    fn settle(self) -> Self
        ensures { result ≡ settled self }
    {
        self.moved(
            self.input,
            after_part(self.part.kind, self.filled),
            part_of(0),
        )
    }

    // The header is read; the row area has room for so many heights.
    #[tactic(auto, unfolding(crate::specs::Machine::begun_on))]
    fn begin(self, input: Input, width: usize, height: usize, room: usize) -> Self
        ensures { result ≡ begun_on self input width height room }
    {
        if room < width {
            return self.moved(input.at_phase(4), self.filled, refused(Refusal::AreaShort));
        }
        Rewriting {
            input,
            width,
            height,
            filled: 0,
            part: part_of(1),
        }
    }

    // One byte of the input, while nothing is being written. There is no line for the levels.
    #[tactic(auto, unfolding(crate::specs::Machine::byte_read))]
    fn read(self, byte: u8, row: &mut [u16]) -> Self
        ensures value { result ≡ (byte_read self row.old byte).state }
        ensures row_after { row.new ≡ (byte_read self row.old byte).row }
    {
        let input = self.input;
        let filled = self.filled;
        match input.read(byte, 0) {
            Ok(Step::More(next)) => self.moved(next, filled, part_of(0)),
            Ok(Step::Begun(next, width, height)) => self.begin(next, width, height, row.len()),
            Ok(Step::Height(next, height)) => keep(self, next, height, row),
            Err(no) => self.moved(no.input, filled, refused(no.why)),
        }
    }

    // With so many bytes more of its part written.
    fn with_done(self, done: usize) -> Self
        ensures { result ≡ done_on done self }
    {
        self.moved(self.input, self.filled, Part { done, ..self.part })
    }

    // Reads a piece of the input and writes what it brings, until the area is full, or the piece is used up and nothing is left to write. The rest of
    // a piece is lent again.
    pub fn feed(self, piece: &[u8], row: &mut [u16], out: &mut [u8]) -> Fed
        ensures went { Went Move (kept self row.old) piece.now 0 result.used out.old out.new 0 result.written
            (kept result.rewriting row.new) }
        ensures stops { Stops busy_on (kept result.rewriting row.new) piece.now result.used out.old result.written result.idle }
    {
        let mut state = self;
        let mut used = 0;
        let mut written = 0;
        while let Some(next) = turn(state, piece, used, row, out, written) {
            state = next.rewriting;
            used = next.used;
            written = next.written;
        }
        Fed {
            rewriting: state,
            used,
            written,
            idle: state.part.kind == 0,
        }
    }

    // The input has ended. To be called once nothing is being written.
    #[tactic(auto, unfolding(crate::specs::Machine::end_of))]
    pub fn end(self) -> Rewriting
        ensures { result ≡ end_of self }
    {
        let input = self.input;
        let filled = self.filled;
        if self.part.kind != 0 {
            return self;
        }
        match input.end() {
            Ok(next) => self.moved(next, filled, part_of(0)),
            Err(Incomplete::Short(next)) => self.moved(next, filled, refused(Refusal::BadInput)),
            Err(Incomplete::Before) => self.moved(input, filled, part_of(0)),
        }
    }
}

// What a call left: the rewriting, how many bytes of the piece it read, how many of the area it wrote, and whether it waits for input.
// Stays: the results of one call, each of which holds in every case: `idle` says nothing of the others.
#[derive(Clone, Copy)]
pub struct Fed {
    pub rewriting: Rewriting,
    pub used: usize,
    pub written: usize,
    pub idle: bool,
}

// What a turn left.
#[derive(Clone, Copy)]
struct Turned {
    rewriting: Rewriting,
    used: usize,
    written: usize,
}

#[derive(Clone, Copy)]
struct Read {
    rewriting: Rewriting,
    used: usize,
}

fn read_byte(rewriting: Rewriting, piece: &[u8], used: usize, row: &mut [u16]) -> Read
    requires { (rewriting.part.kind ≡ 0) × (used < length piece.now) }
    ensures { Reads (kept rewriting row.old) piece.now used result.used (kept result.rewriting row.new) }
{
    Read {
        rewriting: rewriting.read(piece[used], row),
        used: used + 1,
    }
}

// As many whole heights as there are, as are still to come and as the row has room for, straight into the row area. Where the next sample is no height,
// its byte is read.
fn read_run(rewriting: Rewriting, piece: &[u8], used: usize, row: &mut [u16]) -> Read
    requires { (rewriting.part.kind ≡ 0) × (rewriting.input.phase ≡ 3) × (rewriting.input.samples.half ≡ false)
        × (rewriting.filled ≤ rewriting.width) × (rewriting.width ≤ length row.old) × (used + 2 ≤ length piece.now) }
    ensures { Reads (kept rewriting row.old) piece.now used result.used (kept result.rewriting row.new) }
{
    let input = rewriting.input;
    let samples = input.samples;
    let largest = samples.largest;
    let from = rewriting.filled;
    let end = from + bytes::least(input.left, rewriting.width - from);
    let n = runs::read(piece, used, largest, &mut row[from..end]);
    if n == 0 {
        return read_byte(rewriting, piece, used, row);
    }
    let filled = from + n;
    Read {
        rewriting: rewriting.moved(input.took(n), filled, row_part(filled, rewriting.width)),
        used: used + runs::size(largest) * n,
    }
}

// Whether heights are next, and the row area holds a row of them. Where it says no, the next byte is read, which is right for any input.
fn are_next(rewriting: Rewriting, bytes: usize, room: usize) -> bool
    ensures { result ≡ true → (rewriting.input.phase ≡ 3) × (rewriting.input.samples.half ≡ false) × (rewriting.filled ≤ rewriting.width)
        × (rewriting.width ≤ room) × (2 ≤ bytes) }
{
    let input = rewriting.input;
    let fits = rewriting.filled <= rewriting.width && rewriting.width <= room;
    input.phase == 3 && !input.samples.half && fits && 2 <= bytes
}

fn read_on(rewriting: Rewriting, piece: &[u8], used: usize, row: &mut [u16]) -> Read
    requires { (rewriting.part.kind ≡ 0) × (used < length piece.now) }
    ensures { Reads (kept rewriting row.old) piece.now used result.used (kept result.rewriting row.new) }
{
    if are_next(rewriting, piece.len() - used, row.len()) {
        return read_run(rewriting, piece, used, row);
    }
    read_byte(rewriting, piece, used, row)
}

#[derive(Clone, Copy)]
struct Written {
    rewriting: Rewriting,
    place: usize,
}

// As much of the part as there is room for. Where some room is left, the part is written.
fn write_on(rewriting: Rewriting, row: &[u16], out: &mut [u8], at: usize) -> Written
    requires { (at ≤ length out.old) × (0 < rewriting.part.kind) }
    ensures { Writes rewriting row.now out.old out.new at result.place result.rewriting }
{
    let part = rewriting.part;
    let n = parts::put_part(
        part.kind,
        part.number,
        part.done,
        rewriting.width,
        rewriting.height,
        row,
        &mut out[at..],
    );
    if n < out.len() - at {
        return Written {
            rewriting: rewriting.settle(),
            place: at + n,
        };
    }
    Written {
        rewriting: rewriting.with_done(part.done + n),
        place: at + n,
    }
}

// One turn: input is read while nothing is being written, else that is. None where there is nothing to read, or no room to write.
fn turn(
    rewriting: Rewriting,
    piece: &[u8],
    used: usize,
    row: &mut [u16],
    out: &mut [u8],
    written: usize,
) -> Option<Turned>
    requires { (used ≤ length piece.now) × (written ≤ length out.old) }
    ensures went { IfSome result (λ t. Went Move (kept rewriting row.old) piece.now used t.used out.old out.new written
        t.written (kept t.rewriting row.new)) }
    ensures onward { IfSome result (λ t. 2 * used + written + quiet (kept rewriting row.old)
        < 2 * t.used + t.written + quiet (kept t.rewriting row.new)) }
    ensures stops { IfNone result (Stops busy_on (kept rewriting row.old) piece.now used out.old written
        (eqb rewriting.part.kind 0)) }
    ensures kept { IfNone result ((row.new ≡ row.old) × (out.new ≡ out.old)) }
{
    if rewriting.part.kind == 0 {
        if used == piece.len() {
            return None;
        }
        let read = read_on(rewriting, piece, used, row);
        return Some(Turned {
            rewriting: read.rewriting,
            used: read.used,
            written,
        });
    }
    if written == out.len() {
        return None;
    }
    let wrote = write_on(rewriting, row, out, written);
    Some(Turned {
        rewriting: wrote.rewriting,
        used,
        written: wrote.place,
    })
}
