// The state array of a loader: thirty-two numbers, unpacked, used by value, packed again.
ghost use Rattle.std.specs.Prelude.{◌≡◌};
ghost use Rattle.ground_loader.specs.LoaderAnswers.{of_loaded, of_drawn};
ghost use Rattle.states.specs.LoaderAnswers.{taken_number, loaded_words, taken_of, drawn_number, drawn_words, drawn_of};
ghost use Rattle.states.specs.LoaderState.{is_loader, loader_of, loader_words};

use crate::array;
use ground_loader::loader::{DrawError, Loader, TakeError};
use ground_loader::rows::Coming;
use reader::Reader;

// Is this the state array of a loader?
pub fn is_loader(s: &[u64; 32]) -> bool
    ensures { result ≡ is_loader s.now }
{
    if s[0] != 5 {
        return false;
    }
    if 1 < s[7] {
        return false;
    }
    array::zero_from(s, 27)
}

// The loader that the array holds.
pub fn unpack_loader(s: &[u64; 32]) -> Loader
    ensures { result ≡ loader_of s.now }
{
    Loader {
        reader: Reader {
            width: s[1] as usize,
            height: s[2] as usize,
            levels: s[3] as usize,
            drawn: s[4] as usize,
            level: s[5] as usize,
            band: s[6] as usize,
            ended: s[7] == 1,
            x: s[8] as usize,
            y: s[9] as usize,
            back: s[10] as usize,
            filter: s[11] as usize,
            stop: s[12] as usize,
            spare: s[13] as usize,
            admission: s[14] as usize,
        },
        step: s[15] as usize,
        header: s[16] as usize,
        coming: Coming {
            phase: s[17] as usize,
            done: s[18] as usize,
            code: s[19] as usize,
            next: s[20] as usize,
            left: s[21] as usize,
            low: s[22],
            bits: s[23] as usize,
            most: s[24],
        },
        sum: s[25],
        tail: s[26] as usize,
    }
}

// A loader into the array.
pub fn pack_loader(v: Loader, s: &mut [u64; 32])
    ensures { s.new ≡ loader_words v }
{
    let r = v.reader;
    let c = v.coming;
    let ended = array::flag_of(r.ended);
    *s = [
        5,
        r.width as u64,
        r.height as u64,
        r.levels as u64,
        r.drawn as u64,
        r.level as u64,
        r.band as u64,
        ended,
        r.x as u64,
        r.y as u64,
        r.back as u64,
        r.filter as u64,
        r.stop as u64,
        r.spare as u64,
        r.admission as u64,
        v.step as u64,
        v.header as u64,
        c.phase as u64,
        c.done as u64,
        c.code as u64,
        c.next as u64,
        c.left as u64,
        c.low,
        c.bits as u64,
        c.most,
        v.sum,
        v.tail as u64,
        0,
        0,
        0,
        0,
        0,
    ];
}

// A taking call's answer in the caller's numbers, and how many bytes were taken.
pub fn pack_loaded(
    answer: Result<(usize, Loader), TakeError>,
    s: &mut [u64; 32],
    taken: &mut usize,
) -> u32
    ensures value { result ≡ taken_number (of_loaded answer) }
    ensures s_after { s.new ≡ loaded_words (of_loaded answer) s.old }
    ensures taken_after { taken.new ≡ taken_of (of_loaded answer) taken.old }
{
    match answer {
        Ok((n, v)) => {
            pack_loader(v, s);
            *taken = n;
            0
        }
        Err(TakeError::Impossible(n, v)) => {
            pack_loader(v, s);
            *taken = n;
            14
        }
        Err(TakeError::Refused(why)) => why.number() as u32,
    }
}

// A draw's answer, and how many heights were drawn.
pub fn pack_loader_drawn(
    answer: Result<Option<(usize, Loader)>, DrawError>,
    s: &mut [u64; 32],
    drawn: &mut usize,
) -> u32
    ensures value { result ≡ drawn_number (of_drawn answer) }
    ensures s_after { s.new ≡ drawn_words (of_drawn answer) s.old }
    ensures drawn_after { drawn.new ≡ drawn_of (of_drawn answer) drawn.old }
{
    match answer {
        Ok(Some((n, v))) => {
            pack_loader(v, s);
            *drawn = n;
            0
        }
        Ok(None) => {
            *drawn = 0;
            0
        }
        Err(DrawError::Impossible(v)) => {
            pack_loader(v, s);
            14
        }
        Err(DrawError::Refused(why)) => why.number() as u32,
    }
}
