// What a round of read, turn and write leaves, and what follows from it. Where the program itself is, is told by two numbers: `busy`, 0 where nothing is
// being written, and `phase`, that of its input (pgm::input).
ghost use Rattle.std.specs.Prelude.{◌≡◌, ◌<◌, ◌≤◌, length, IfOk, IfErr, OnOk};
ghost use Rattle.rounds.specs.Rounds.{waits_at, over_at, failed, ended, ends, whole, going, started, outcome_of};

use descriptors::input::{Came, Filled, Left};
use descriptors::output::Cut;
use descriptors::{input, output};
use std::io::{Print, Write};

// What is left of the chunk after a round, and of that round: what was read, how many bytes of the area were written and how many of those were sent,
// and whether nothing is left to feed or to write.
// Stays: what one round left, each of which holds in every case: `idle` says nothing of the others.
#[derive(Clone, Copy)]
pub struct Outcome {
    pub left: Left,
    pub filled: Filled,
    pub written: usize,
    pub sent: Result<usize, Cut>,
    pub idle: bool,
}

// Whether a program waits for input: nothing is being written, and neither a refusal nor the end of the input came.
#[tactic(auto, unfolding(crate::specs::Rounds::waits_at))]
pub fn waits(busy: usize, phase: usize) -> bool
    ensures { result ≡ waits_at busy phase }
{
    busy == 0 && phase < 4
}

// Whether it is over: nothing is being written, and a refusal or the end of the input came.
#[tactic(auto, unfolding(crate::specs::Rounds::over_at))]
pub fn is_over(busy: usize, phase: usize) -> bool
    ensures { result ≡ over_at busy phase }
{
    busy == 0 && 3 < phase
}

// Before the first round: nothing is left, nothing has failed.
pub fn start() -> Outcome
    ensures { result ≡ started }
{
    let none = Left { from: 0, to: 0 };
    Outcome {
        left: none,
        filled: Filled {
            left: none,
            came: Came::Nothing,
        },
        written: 0,
        sent: Ok(0),
        idle: false,
    }
}

// What was written goes to standard output, which `to` is; nothing of what does not fit the area. What fails is told by that name.
pub fn send<W: Write, E: Print>(
    to: &mut W,
    out: &[u8],
    written: usize,
    errors: &E,
) -> Result<usize, Cut>
    ensures whole { IfOk result (λ count. count ≡ written) }
    ensures cut { IfErr result (λ cut. cut.count < written) }
    ensures room { OnOk result (written ≤ length out.now) }
{
    if out.len() < written {
        return Err(Cut { count: 0 });
    }
    output::send(to, b"standard output", &out[..written], errors)
}

// After a round: `used` bytes of what stood in the chunk were fed, which wrote `written`.
pub fn after(
    filled: Filled,
    used: usize,
    written: usize,
    idle: bool,
    sent: Result<usize, Cut>,
) -> Outcome
    ensures { result ≡ outcome_of filled used written idle sent }
{
    Outcome {
        left: input::used(filled.left, used),
        filled,
        written,
        sent,
        idle,
    }
}

// Whether input or output has failed.
#[tactic(auto, unfolding(crate::specs::Rounds::failed))]
pub fn has_failed(outcome: Outcome) -> bool
    ensures { result ≡ failed outcome }
{
    outcome.filled.came.is_failed() || outcome.sent.is_err()
}

// Whether the input has ended, and all of it is fed.
#[tactic(auto, unfolding(crate::specs::Rounds::ended))]
pub fn has_ended(outcome: Outcome) -> bool
    ensures { result ≡ ended outcome }
{
    outcome.filled.came.is_end() && outcome.idle
}

// Whether the end of the input is to be passed on.
#[tactic(auto, unfolding(crate::specs::Rounds::ends))]
pub fn ends(outcome: Outcome) -> bool
    ensures { result ≡ ends outcome }
{
    has_ended(outcome) && !has_failed(outcome)
}

// Whether all was written that there is to write; `over`: the program is over.
#[tactic(auto, unfolding(crate::specs::Rounds::whole))]
pub fn is_whole(over: bool, outcome: Outcome) -> bool
    ensures { result ≡ whole over outcome }
{
    !has_failed(outcome) && over
}

// Whether there is another round.
#[tactic(auto, unfolding(crate::specs::Rounds::going))]
pub fn continues(over: bool, outcome: Outcome) -> bool
    ensures { result ≡ going over outcome }
{
    !has_failed(outcome) && !has_ended(outcome) && !over
}
