// The state array of a reader: unpacked, used by value, packed again.
ghost use Rattle.std.specs.Prelude.{◌≡◌, length};
ghost use Rattle.reader.specs.Answers.{number, of_fed, of_drawn};
ghost use Rattle.numbers.specs.Signal.{pick};
ghost use Rattle.reader.specs.Runs.{of_ran};
ghost use Rattle.states.specs.ReaderAnswers.{fed_words, handed_words, count_of, ran_number, ran_words, counts_of};
ghost use Rattle.states.specs.ReaderState.{is_reader, reader_of, moved_words, reader_words};

use crate::array;
use reader::runs::Tally;
use reader::{ReadError, Reader};
use refusal::Refusal;

// Is this the state array of a reader?
pub fn is_reader(s: &[u64; 16]) -> bool
    ensures { result ≡ is_reader s.now }
{
    if s[0] != 2 {
        return false;
    }
    if 1 < s[7] {
        return false;
    }
    array::zero_from(s, 15)
}

// The reader that the array holds.
pub fn unpack_reader(s: &[u64; 16]) -> Reader
    ensures { result ≡ reader_of s.now }
{
    Reader {
        width: s[1] as usize,
        height: s[2] as usize,
        levels: s[3] as usize,
        drawn: s[4] as usize,
        level: s[5] as usize,
        band: s[6] as usize,
        ended: s[7] == 1,
        x: s[8] as usize,
        y: s[9] as usize,
        back: s[10] as usize,
        filter: s[11] as usize,
        stop: s[12] as usize,
        spare: s[13] as usize,
        admission: s[14] as usize,
    }
}

// A reader into the array.
pub fn pack_reader(r: Reader, s: &mut [u64; 16])
    ensures { s.new ≡ reader_words r }
{
    let ended = array::flag_of(r.ended);
    *s = [
        2,
        r.width as u64,
        r.height as u64,
        r.levels as u64,
        r.drawn as u64,
        r.level as u64,
        r.band as u64,
        ended,
        r.x as u64,
        r.y as u64,
        r.back as u64,
        r.filter as u64,
        r.stop as u64,
        r.spare as u64,
        r.admission as u64,
        0,
    ];
}

// Those of its words that a feed or a draw that passes changes; the others stand there already.
fn pack_moved(r: Reader, s: &mut [u64; 16])
    ensures { s.new ≡ moved_words r s.old }
{
    s[4] = r.drawn as u64;
    s[5] = r.level as u64;
    s[6] = r.band as u64;
    s[7] = 0;
    s[10] = r.back as u64;
}

// A feed's answer in the caller's numbers.
pub fn pack_fed(answer: Result<Reader, ReadError>, s: &mut [u64; 16]) -> u32
    ensures value { result ≡ number (of_fed answer) }
    ensures s_after { (s.new ≡ fed_words (of_fed answer) s.old) × (length s.old ≡ 16) }
{
    array::sized(*s);
    match answer {
        Ok(r) => {
            pack_moved(r, s);
            0
        }
        Err(ReadError::Impossible(r)) => {
            pack_reader(r, s);
            14
        }
        Err(ReadError::Refused(why)) => why.number() as u32,
    }
}

// A draw's answer, and how many heights were drawn.
pub fn pack_drawn(
    answer: Result<Option<(usize, Reader)>, ReadError>,
    s: &mut [u64; 16],
    drawn: &mut usize,
) -> u32
    ensures value { result ≡ number (of_drawn answer) }
    ensures s_after { (s.new ≡ handed_words (of_drawn answer) s.old) × (length s.old ≡ 16) }
    ensures drawn_after { drawn.new ≡ count_of (of_drawn answer) drawn.old }
{
    array::sized(*s);
    match answer {
        Ok(Some((n, r))) => {
            pack_moved(r, s);
            *drawn = n;
            0
        }
        Ok(None) => {
            *drawn = 0;
            0
        }
        Err(ReadError::Impossible(r)) => {
            pack_reader(r, s);
            14
        }
        Err(ReadError::Refused(why)) => why.number() as u32,
    }
}

// 14, where a run ended the reader.
fn ending(ended: bool) -> u32
    ensures { result ≡ pick ended 14 0 }
{
    if ended { 14 } else { 0 }
}

// A run's answer: the whole array, and the counts.
pub fn pack_ran(
    answer: Result<(Tally, Reader), Refusal>,
    s: &mut [u64; 16],
    counts: &mut [u64; 2],
) -> u32
    ensures value { result ≡ ran_number (of_ran answer) }
    ensures s_after { s.new ≡ ran_words (of_ran answer) s.old }
    ensures counts_after { counts.new ≡ counts_of (of_ran answer) counts.old }
{
    match answer {
        Ok((done, r)) => {
            pack_reader(r, s);
            *counts = [done.used as u64, done.rows as u64];
            ending(r.ended)
        }
        Err(why) => why.number() as u32,
    }
}
