// The turn-giver's calls. The state is the caller's array of four numbers: `turns_state` unpacks and packs it.
ghost use Rattle.std.specs.Prelude.{◌≡◌};
ghost use Rattle.turns.specs.Calls.{fresh};
ghost use Rattle.states.specs.WriterAnswers.{number};
ghost use Rattle.states.specs.TurnsState.{turns_words, changed_words, turn_words, reader_of};
ghost use Rattle.terrain.specs.TurnsCalls.{marking, clearing, giving};

use states::turns_state;
use turns::Turns;

// A fresh turn-giver. No question is asked.
pub fn terrain_turns_set_up(turns: &mut [u64; 4]) -> u32
    ensures value { result ≡ 0 }
    ensures turns_after { turns.new ≡ turns_words fresh }
{
    turns_state::pack_turns(Turns::set_up(), turns);
    0
}

// A reader wants a band row. The questions are 1 and 21.
pub fn terrain_turns_mark(turns: &mut [u64; 4], reader: usize) -> u32
    ensures value { result ≡ number (marking turns.old reader) }
    ensures turns_after { turns.new ≡ changed_words (marking turns.old reader) turns.old }
{
    if !turns_state::is_turns(turns) {
        return 1;
    }
    let t = turns_state::unpack_turns(turns);
    turns_state::pack_changed(t.mark(reader), turns)
}

// It wants none. The questions are 1 and 21.
pub fn terrain_turns_clear(turns: &mut [u64; 4], reader: usize) -> u32
    ensures value { result ≡ number (clearing turns.old reader) }
    ensures turns_after { turns.new ≡ changed_words (clearing turns.old reader) turns.old }
{
    if !turns_state::is_turns(turns) {
        return 1;
    }
    let t = turns_state::unpack_turns(turns);
    turns_state::pack_changed(t.clear(reader), turns)
}

// The reader whose turn it is, or 16 for Nothing. The question is 1.
pub fn terrain_turns_give(turns: &mut [u64; 4], reader: &mut usize) -> u32
    ensures value { result ≡ number (giving turns.old) }
    ensures turns_after { turns.new ≡ turn_words (giving turns.old) turns.old }
    ensures reader_after { reader.new ≡ reader_of (giving turns.old) reader.old }
{
    if !turns_state::is_turns(turns) {
        return 1;
    }
    let t = turns_state::unpack_turns(turns);
    turns_state::pack_turn(t.give(), turns, reader)
}
