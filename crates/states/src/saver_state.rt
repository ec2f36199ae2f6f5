// The state array of a saver: thirty-two numbers, unpacked, used by value, packed again.
ghost use Rattle.std.specs.Prelude.{◌≡◌};
ghost use Rattle.refusal.specs.Numbers.{answer};
ghost use Rattle.ground_file.specs.declared.saver.Saver.{Saver};
ghost use Rattle.ground_file.specs.Saving.{of_saved};
ghost use Rattle.states.specs.SaverState.{is_saver, saver_of, saver_words, saved_words, written_of};

use crate::array;
use ground_file::saver::{Saver, Turn};
use reader_order::Place;
use refusal::Refusal;
use wavelet::shape::Shape;

// Is this the state array of a saver?
pub fn is_saver(s: &[u64; 32]) -> bool
    ensures { result ≡ is_saver s.now }
{
    if s[0] != 4 {
        return false;
    }
    if 65535 < s[4] {
        return false;
    }
    if 65535 < s[5] {
        return false;
    }
    if 4294967295 < s[6] {
        return false;
    }
    array::zero_from(s, 16)
}

// The saver that the array holds.
pub fn unpack_saver(s: &[u64; 32]) -> Saver
    ensures { result ≡ saver_of s.now }
{
    Saver {
        shape: Shape {
            width: s[1] as usize,
            height: s[2] as usize,
            levels: s[3] as usize,
            x: (s[4] % 65536) as u16,
            y: (s[5] % 65536) as u16,
            filter: (s[6] % 4294967296) as u32,
        },
        step: s[7] as usize,
        place: Place {
            drawn: s[8] as usize,
            level: s[9] as usize,
            set: s[10] as usize,
            band: s[11] as usize,
        },
        group: s[12] as usize,
        part: s[13] as usize,
        sum: s[14],
        phase: s[15] as usize,
    }
}

// A saver into the array.
pub fn pack_saver(v: Saver, s: &mut [u64; 32])
    ensures { s.new ≡ saver_words v }
{
    let shape = v.shape;
    let place = v.place;
    *s = [
        4,
        shape.width as u64,
        shape.height as u64,
        shape.levels as u64,
        shape.x as u64,
        shape.y as u64,
        shape.filter as u64,
        v.step as u64,
        place.drawn as u64,
        place.level as u64,
        place.set as u64,
        place.band as u64,
        v.group as u64,
        v.part as u64,
        v.sum,
        v.phase as u64,
        0,
        0,
        0,
        0,
        0,
        0,
        0,
        0,
        0,
        0,
        0,
        0,
        0,
        0,
        0,
        0,
    ];
}

// The outcome of a saving call in the caller's numbers: the array and the bytes written, where it was not turned away.
pub fn pack_saved(outcome: Result<Turn, Refusal>, s: &mut [u64; 32], written: &mut usize) -> u32
    ensures value { result ≡ answer outcome }
    ensures s_after { (v : Saver) → s.new ≡ saved_words (of_saved v outcome) s.old }
    ensures written_after { (v : Saver) → written.new ≡ written_of (of_saved v outcome) written.old }
{
    match outcome {
        Ok(turn) => {
            pack_saver(turn.saver, s);
            *written = turn.at;
            0
        }
        Err(why) => why.number() as u32,
    }
}
