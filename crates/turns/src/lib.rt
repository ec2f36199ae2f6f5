// Fair turns at the disk (document 02, Q-11): sixteen readers' wants as marks, and which reader is next. A state by value; nothing here knows a reader.
#![tactic(auto)]

mod order;

ghost use Rattle.std.specs.Prelude.{◌≡◌};
ghost use Rattle.refusal.specs.Numbers.{answer};
ghost use Rattle.turns.specs.Answers.{of_changed, of_turn};
ghost use Rattle.turns.specs.Calls.{fresh, in_range, change_question, mark_reply, clear_reply, turn_reply};

use refusal::Refusal;

// The marks, bit n that of reader n, and the reader served last; docs/STATE.md gives their ranges.
#[derive(Clone, Copy)]
pub struct Turns {
    pub marks: usize,
    // 15 before any was: the first turn looks from reader 0 on
    pub last: usize,
}

// Are the numbers in their ranges? Question 1.
fn in_range(t: Turns) -> bool
    ensures { result ≡ in_range t }
{
    if order::ALL_MARKED < t.marks {
        return false;
    }
    t.last <= order::LAST
}

// The questions of marking and clearing: 1 of the state, then 21 of the reader's number.
fn change_question(t: Turns, reader: usize) -> Result<(), Refusal>
    ensures { answer result ≡ change_question t reader }
{
    if !in_range(t) {
        return Err(Refusal::BadState);
    }
    if order::LAST < reader {
        return Err(Refusal::BadReader);
    }
    Ok(())
}

impl Turns {
    // A fresh turn-giver: no reader marked, none served.
    pub fn set_up() -> Turns
        ensures { result ≡ fresh }
    {
        Turns {
            marks: 0,
            last: order::LAST,
        }
    }

    // A reader wants a band row, until its mark is cleared. The questions are 1 and 21.
    pub fn mark(self, reader: usize) -> Result<Turns, Refusal>
        ensures { of_changed result ≡ mark_reply self reader }
    {
        change_question(self, reader)?;
        Ok(Turns {
            marks: order::with_mark(self.marks, reader),
            ..self
        })
    }

    // It wants none. The questions are 1 and 21.
    pub fn clear(self, reader: usize) -> Result<Turns, Refusal>
        ensures { of_changed result ≡ clear_reply self reader }
    {
        change_question(self, reader)?;
        Ok(Turns {
            marks: order::without_mark(self.marks, reader),
            ..self
        })
    }

    // The next turn: the first marked reader in circular order after the one served last, or Nothing. No mark is cleared. The question is 1.
    pub fn give(self) -> Result<Option<(usize, Turns)>, Refusal>
        ensures { of_turn result ≡ turn_reply self }
    {
        if !in_range(self) {
            return Err(Refusal::BadState);
        }
        match order::first_marked(self.marks, self.last) {
            Some(reader) => Ok(Some((
                reader,
                Turns {
                    last: reader,
                    ..self
                },
            ))),
            None => Ok(None),
        }
    }
}
