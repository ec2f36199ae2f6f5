// What a loader makes of bytes, one after the other. The module is private, as `widths` is.
ghost use Rattle.std.specs.Prelude.{◌≡◌, ℕ, true, false, ltb, length};
ghost use Rattle.numbers.specs.Signal.{at, pick};
ghost use Rattle.reader.specs.Answers.{of_wanted};
ghost use Rattle.reader.specs.Answers as reply;
ghost use Rattle.reader.specs.Reading.{feed_question, feed_reply, feed_store};
ghost use Rattle.ground_loader.specs.Coming.{refused};
ghost use Rattle.ground_loader.specs.Coming as came;
ghost use Rattle.ground_loader.specs.Loader.{world_of, want_in, is_over, row_byte, byte_of, ran, ran_answer};
ghost use Rattle.ground_loader.specs.LoaderAnswers.{of_loaded};
ghost use Rattle.ground_loader.specs.Local.{of_step, stop_number, stop_loader, plain_due, due_after, due_of, Sound, Areas, Onward, Became, FedStep, HeaderTaken, TailTaken, ToldOf};

use crate::loader::{Due, Loader, Next, Stop, TakeError};
use crate::rows::Coming;
use crate::{header, rows, sums};
use reader::{ReadError, Wanted};
use refusal::Refusal;

fn plain(phase: usize) -> Due
    ensures { result ≡ plain_due phase }
{
    Due {
        phase,
        level: 0,
        band: 0,
        count: 0,
    }
}

// After the last height row: the checksum, of which so many bytes came.
fn at_end(tail: usize) -> Due
    ensures { result ≡ pick (ltb tail 4) (plain_due 2) (plain_due 4) }
{
    if tail < 4 {
        return plain(2);
    }
    plain(4)
}

// By what the reader wants.
fn due_by(want: Result<Wanted, Refusal>, tail: usize) -> Due
    ensures { result ≡ due_after tail (want_in (of_wanted want)) }
{
    match want {
        Ok(
            Wanted::Row {
                level,
                band,
                length,
                ..
            },
        ) => Due {
            phase: 1,
            level,
            band,
            count: length,
        },
        Ok(Wanted::Draw) => plain(3),
        Ok(Wanted::Done) => at_end(tail),
        Ok(Wanted::Ended) => plain(5),
        Err(_) => plain(5),
    }
}

// What a loader wants.
pub fn due_of(l: Loader) -> Due
    ensures { result ≡ due_of l }
{
    let r = l.reader;
    if r.ended {
        return plain(5);
    }
    if l.header < 24 {
        return plain(0);
    }
    due_by(r.want(), l.tail)
}

// A loader whose byte was taken, and what it wants.
fn taken(l: Loader) -> Next
    ensures { result ≡ record { loader = l; due = due_of l } }
{
    Next {
        loader: l,
        due: due_of(l),
    }
}

// A byte of the header.
fn header_byte(l: Loader, d: Due, byte: u8) -> Result<Next, Stop>
    requires { Sound l d × (d.phase ≡ 0) }
    ensures header_taken { HeaderTaken l byte (of_step l d result) }
    ensures onward { Onward l (of_step l d result) }
{
    if header::byte_at(l.reader, l.step, l.header) != byte {
        return Err(Stop::NoFile);
    }
    Ok(taken(Loader {
        header: l.header + 1,
        sum: sums::sum_on(l.sum, byte),
        ..l
    }))
}

// A byte of the checksum.
fn tail_byte(l: Loader, d: Due, byte: u8) -> Result<Next, Stop>
    requires { Sound l d × (d.phase ≡ 2) }
    ensures tail_taken { TailTaken l byte (of_step l d result) }
    ensures onward { Onward l (of_step l d result) }
{
    if !sums::is_sum_byte(l.sum, l.tail, byte) {
        return Err(Stop::NoFile);
    }
    Ok(taken(Loader {
        tail: l.tail + 1,
        ..l
    }))
}

// The row is over and fed. The reader turns nothing away, as its questions were asked.
fn feed(l: Loader, d: Due, store: &mut [i32], row: &[i32], byte: u8) -> Result<Next, Stop>
    requires { Sound l d × (d.phase ≡ 1) × ((q : ℕ)
        → feed_reply l.reader (feed_question l.reader (length store.old) (at store.old) (length row.now) (at row.now)) ≡ reply.refused q → ⊥) }
    ensures fed_step { FedStep l byte (of_step l d result)
        (feed_reply l.reader
        (feed_question l.reader (length store.old) (at store.old) (length row.now) (at row.now))) }
    ensures onward { Onward l (of_step l d result) }
    ensures store_after { at store.new ≡
        feed_store l.reader
        (feed_question l.reader (length store.old) (at store.old) (length row.now) (at row.now))
        (at row.now) (at store.old) }
{
    match l.reader.feed(store, row) {
        Ok(reader) => Ok(taken(Loader {
            reader,
            coming: rows::before_group(0),
            sum: sums::sum_on(l.sum, byte),
            ..l
        })),
        Err(ReadError::Impossible(reader)) => Err(Stop::Ended(Loader {
            reader,
            coming: rows::before_group(0),
            ..l
        })),
        Err(ReadError::Refused(_)) => unreachable!(),
    }
}

// The last byte of a row. 7 is asked before anything is changed.
fn last_byte(l: Loader, d: Due, store: &mut [i32], row: &mut [i32], byte: u8) -> Result<Next, Stop>
    requires { Sound l d × (d.phase ≡ 1) × Areas l (length store.old) (length row.old) × (refused d.count l.coming byte ≡ false)
        × (is_over d.count (came.moved d.count l.coming byte) ≡ true) }
    ensures became { Became (world_of l (at store.old) (at row.old)) (of_step l d result) (at store.new) (at row.new)
        (row_byte (world_of l (at store.old) (at row.old)) (length store.old) byte d.band d.count) }
    ensures onward { Onward l (of_step l d result) }
{
    let r = l.reader;
    let c = l.coming;
    let most = filters::range_of(r.filter, d.level);
    if !rows::all_within(c, d.count, byte, row, most) {
        return Err(Stop::OutOfRange);
    }
    rows::put_byte(c, d.count, byte, row);
    feed(l, d, store, &row[..d.count], byte)
}

// Is a row of n numbers over?
fn is_over(c: Coming, n: usize) -> bool
    ensures { result ≡ is_over n c }
{
    (c.phase == 0) & (c.done == n)
}

// A byte of a band row.
fn row_byte(l: Loader, d: Due, store: &mut [i32], row: &mut [i32], byte: u8) -> Result<Next, Stop>
    requires { Sound l d × (d.phase ≡ 1) × Areas l (length store.old) (length row.old) }
    ensures became { Became (world_of l (at store.old) (at row.old)) (of_step l d result) (at store.new) (at row.new)
        (row_byte (world_of l (at store.old) (at row.old)) (length store.old) byte d.band d.count) }
    ensures onward { Onward l (of_step l d result) }
{
    let c = l.coming;
    let Some(next) = rows::next_of(c, d.count, byte) else {
        return Err(Stop::NoFile);
    };
    if is_over(next, d.count) {
        return last_byte(l, d, store, row, byte);
    }
    rows::put_byte(c, d.count, byte, row);
    let loader = Loader {
        coming: next,
        sum: sums::sum_on(l.sum, byte),
        ..l
    };
    Ok(Next { loader, due: d })
}

// The next byte.
fn take_byte(l: Loader, d: Due, store: &mut [i32], row: &mut [i32], byte: u8) -> Result<Next, Stop>
    requires { Sound l d × Areas l (length store.old) (length row.old) }
    ensures became { Became (world_of l (at store.old) (at row.old)) (of_step l d result) (at store.new) (at row.new)
        (byte_of (world_of l (at store.old) (at row.old)) (length store.old) byte) }
    ensures onward { Onward l (of_step l d result) }
{
    if d.phase == 0 {
        return header_byte(l, d, byte);
    }
    if d.phase == 1 {
        return row_byte(l, d, store, row, byte);
    }
    tail_byte(l, d, byte)
}

// What a call gives where a byte was not taken, after so many that left the loader l.
fn stopped(stop: Stop, at: usize, l: Loader) -> Result<(usize, Loader), TakeError>
    ensures { ToldOf (stop_number stop) at (stop_loader l stop) (of_loaded result) }
{
    match stop {
        Stop::Ended(ended) => Err(TakeError::Impossible(at, ended)),
        Stop::NoFile => {
            if at == 0 {
                return Err(TakeError::Refused(Refusal::NoFile));
            }
            Ok((at, l))
        }
        Stop::OutOfRange => {
            if at == 0 {
                return Err(TakeError::Refused(Refusal::OutOfRange));
            }
            Ok((at, l))
        }
    }
}

// Byte after byte, until one is turned away, none is wanted or the run is used up.
pub fn take_run(
    l: Loader,
    store: &mut [i32],
    row: &mut [i32],
    run: &[u8],
) -> Result<(usize, Loader), TakeError>
    requires { Sound l (due_of l) × Areas l (length store.old) (length row.old) }
    ensures result_value { of_loaded result ≡
        ran_answer (ran (length store.old) run.now (world_of l (at store.old) (at row.old))) }
    ensures store_after { at store.new ≡
        (ran (length store.old) run.now (world_of l (at store.old) (at row.old))).world.store }
    ensures row_after { at row.new ≡
        (ran (length store.old) run.now (world_of l (at store.old) (at row.old))).world.row }
{
    let mut next = taken(l);
    for (at, byte) in run.iter().enumerate() {
        if 3 <= next.due.phase {
            return Ok((at, next.loader));
        }
        match take_byte(next.loader, next.due, store, row, *byte) {
            Ok(on) => next = on,
            Err(stop) => return stopped(stop, at, next.loader),
        }
    }
    Ok((run.len(), next.loader))
}
