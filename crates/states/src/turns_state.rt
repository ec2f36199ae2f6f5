// The state array of a turn-giver: four numbers, unpacked, used by value, packed again.
ghost use Rattle.std.specs.Prelude.{◌≡◌};
ghost use Rattle.turns.specs.Answers.{of_changed, of_turn};
ghost use Rattle.states.specs.WriterAnswers.{number};
ghost use Rattle.states.specs.TurnsState.{is_turns, turns_of, turns_words, changed_words, turn_words, reader_of};

use refusal::Refusal;
use turns::Turns;

// Is this the state array of a turn-giver?
pub fn is_turns(s: &[u64; 4]) -> bool
    ensures { result ≡ is_turns s.now }
{
    if s[0] != 3 {
        return false;
    }
    s[3] == 0
}

// The turn-giver that the array holds.
pub fn unpack_turns(s: &[u64; 4]) -> Turns
    ensures { result ≡ turns_of s.now }
{
    Turns {
        marks: s[1] as usize,
        last: s[2] as usize,
    }
}

// A turn-giver into the array.
pub fn pack_turns(t: Turns, s: &mut [u64; 4])
    ensures { s.new ≡ turns_words t }
{
    *s = [3, t.marks as u64, t.last as u64, 0];
}

// The answer to a mark or a clear in the caller's numbers.
pub fn pack_changed(answer: Result<Turns, Refusal>, s: &mut [u64; 4]) -> u32
    ensures value { result ≡ number (of_changed answer) }
    ensures s_after { s.new ≡ changed_words (of_changed answer) s.old }
{
    match answer {
        Ok(t) => {
            pack_turns(t, s);
            0
        }
        Err(why) => why.number() as u32,
    }
}

// A turn, and the reader that it serves; 16 for Nothing.
pub fn pack_turn(
    answer: Result<Option<(usize, Turns)>, Refusal>,
    s: &mut [u64; 4],
    reader: &mut usize,
) -> u32
    ensures value { result ≡ number (of_turn answer) }
    ensures s_after { s.new ≡ turn_words (of_turn answer) s.old }
    ensures reader_after { reader.new ≡ reader_of (of_turn answer) reader.old }
{
    match answer {
        Ok(Some((n, t))) => {
            pack_turns(t, s);
            *reader = n;
            0
        }
        Ok(None) => {
            *reader = 16;
            0
        }
        Err(why) => why.number() as u32,
    }
}
