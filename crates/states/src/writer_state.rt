// The state array of a writer: unpacked, used by value, packed again.
ghost use Rattle.std.specs.Prelude.{◌≡◌, length};
ghost use Rattle.writer.specs.Answers.{of_offered, of_drawn};
ghost use Rattle.writer.specs.Runs.{of_ran};
ghost use Rattle.states.specs.WriterState.{is_writer, writer_of, writer_words};
ghost use Rattle.states.specs.WriterAnswers.{number, took_words, taken_of, handed_words, row_of, ran_words, counts_of};

use crate::array;
use refusal::Refusal;
use writer::runs::Ran;
use writer::{Drawn, Taken, Writer};

// Is this the state array of a writer?
pub fn is_writer(s: &[u64; 16]) -> bool
    ensures { result ≡ is_writer s.now }
{
    if s[0] != 1 {
        return false;
    }
    if 1 < s[5] {
        return false;
    }
    array::zero_from(s, 13)
}

// The writer that the array holds.
pub fn unpack_writer(s: &[u64; 16]) -> Writer
    ensures { result ≡ writer_of s.now }
{
    Writer {
        width: s[1] as usize,
        levels: s[2] as usize,
        rows: s[3] as usize,
        column: s[4] as usize,
        finished: s[5] == 1,
        closed: s[6] as usize,
        level: s[7] as usize,
        left: s[8] as usize,
        offset: s[9] as usize,
        x: s[10] as usize,
        y: s[11] as usize,
        filter: s[12] as usize,
    }
}

// A writer into the array.
pub fn pack_writer(w: Writer, s: &mut [u64; 16])
    ensures { s.new ≡ writer_words w }
{
    let finished = array::flag_of(w.finished);
    *s = [
        1,
        w.width as u64,
        w.levels as u64,
        w.rows as u64,
        w.column as u64,
        finished,
        w.closed as u64,
        w.level as u64,
        w.left as u64,
        w.offset as u64,
        w.x as u64,
        w.y as u64,
        w.filter as u64,
        0,
        0,
        0,
    ];
}

// An offer's answer in the caller's numbers: those words that an offer changes, since the others stand there already, and the heights taken.
pub fn pack_offered(answer: Result<Taken, Refusal>, s: &mut [u64; 16], taken: &mut usize) -> u32
    ensures value { result ≡ number (of_offered answer) }
    ensures s_after { (s.new ≡ took_words (of_offered answer) s.old) × (length s.old ≡ 16) }
    ensures taken_after { taken.new ≡ taken_of (of_offered answer) taken.old }
{
    array::sized(*s);
    match answer {
        Ok(Taken { heights, writer }) => {
            s[3] = writer.rows as u64;
            s[4] = writer.column as u64;
            s[7] = writer.level as u64;
            s[8] = writer.left as u64;
            s[9] = writer.offset as u64;
            *taken = heights;
            0
        }
        Err(why) => u32::from(why.number()),
    }
}

// A draw's answer: those words that a draw changes, and the band row drawn.
pub fn pack_drawn(
    answer: Result<Option<Drawn>, Refusal>,
    s: &mut [u64; 16],
    row: &mut [u64; 4],
) -> u32
    ensures value { result ≡ number (of_drawn answer) }
    ensures s_after { (s.new ≡ handed_words (of_drawn answer) s.old) × (length s.old ≡ 16) }
    ensures row_after { row.new ≡ row_of (of_drawn answer) row.old }
{
    array::sized(*s);
    match answer {
        Ok(Some(Drawn { row: r, writer })) => {
            s[3] = writer.rows as u64;
            s[4] = writer.column as u64;
            s[6] = writer.closed as u64;
            s[7] = writer.level as u64;
            s[8] = writer.left as u64;
            s[9] = writer.offset as u64;
            *row = [r.level as u64, r.band as u64, r.row as u64, r.length as u64];
            0
        }
        Ok(None) => {
            *row = [0, 0, 0, 0];
            0
        }
        Err(why) => u32::from(why.number()),
    }
}

// A run's answer: the whole array, and the counts.
pub fn pack_ran(answer: Result<Ran, Refusal>, s: &mut [u64; 16], counts: &mut [u64; 3]) -> u32
    ensures value { result ≡ number (of_ran answer) }
    ensures s_after { s.new ≡ ran_words (of_ran answer) s.old }
    ensures counts_after { counts.new ≡ counts_of (of_ran answer) counts.old }
{
    match answer {
        Ok(Ran { done, writer }) => {
            pack_writer(writer, s);
            *counts = [done.taken as u64, done.rows as u64, done.numbers as u64];
            0
        }
        Err(why) => u32::from(why.number()),
    }
}
