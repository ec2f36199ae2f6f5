// A program over std's readers and writers: rounds of read, turn and write, within a constant memory.
// No contract can say what is read or written; what becomes of the bytes between is said of each round, and by theorems of all of them.
ghost use Rattle.std.specs.Prelude.{◌≡◌, length};
ghost use Rattle.text.specs.Moves.{Went, Stops};
ghost use Rattle.descriptors.specs.Left.{left_in, Within};
ghost use Rattle.rounds.specs.Rounds.{waiting, over, going, Round, Ran, Completed, Answers};

use crate::program::{Fed, Program};
use crate::round;
use crate::round::Outcome;
use descriptors::input;
use descriptors::input::Left;
use std::io::{Print, Read, Write};

fn waits<P: Program>(program: &P) -> bool
    ensures { result ≡ waiting P.machine (P.state program.now) }
{
    round::waits(program.busy(), program.phase())
}

fn is_over<P: Program>(program: &P) -> bool
    ensures { result ≡ over P.machine (P.state program.now) }
{
    round::is_over(program.busy(), program.phase())
}

// Whether there is another round after one that left `last`.
fn continues<P: Program>(program: &P, last: Outcome) -> bool
    ensures { result ≡ going (over P.machine (P.state program.now)) last }
{
    round::continues(is_over(program), last)
}

// What is left of the chunk is fed.
#[tactic(auto, unfolding(descriptors::specs::Left::left_in))]
fn turn<P: Program>(program: &mut P, left: Left, chunk: &[u8], out: &mut [u8]) -> Fed
    requires { Within chunk.now left }
    ensures went { Went P.machine.Move (P.state program.old) (left_in chunk.now left) 0 result.used out.old out.new 0
        result.written (P.state program.new) }
    ensures stops { Stops P.machine.busy (P.state program.new) (left_in chunk.now left) result.used out.old
        result.written result.idle }
{
    program.feed(&chunk[left.from..left.to], out)
}

// Read, turn, write. `last` is what the round before left.
fn one_round<P: Program, R: Read, W: Write, E: Print>(
    program: &mut P,
    last: Outcome,
    from: &mut R,
    name: &[u8],
    to: &mut W,
    errors: &E,
    chunk: &mut [u8],
    out: &mut [u8],
) -> Outcome
    requires { Within chunk.old last.left }
    ensures { Round P.machine (length out.old) (P.state program.old) last.left chunk.old chunk.new out.old out.new
        (P.state program.new) result }
{
    let filled = input::fill(last.left, waits(program), from, name, chunk, errors);
    let fed = turn(program, filled.left, chunk, out);
    let sent = round::send(to, out, fed.written, errors);
    round::after(filled, fed.used, fed.written, fed.idle, sent)
}

// A proved loop has to end, so it counts its turns up to a number that no run uses up.
fn all_rounds<P: Program, R: Read, W: Write, E: Print>(
    program: &mut P,
    from: &mut R,
    name: &[u8],
    to: &mut W,
    errors: &E,
    chunk: &mut [u8],
    out: &mut [u8],
) -> Outcome
    ensures { Ran P.machine (length out.old) (P.state program.old) (P.state program.new) chunk.new result }
{
    let mut last = round::start();
    for _ in 0..u64::MAX {
        if !continues(program, last) {
            return last;
        }
        last = one_round(program, last, from, name, to, errors, chunk, out);
    }
    last
}

// All of an input: rounds until it ends, and on with what its end makes due.
fn run_all<P: Program, R: Read, W: Write, E: Print>(
    program: &mut P,
    from: &mut R,
    name: &[u8],
    to: &mut W,
    errors: &E,
    chunk: &mut [u8],
    out: &mut [u8],
) -> Outcome
    ensures { Completed P.machine (length out.old) P.ended (P.state program.old) (P.state program.new) result }
{
    let last = all_rounds(program, from, name, to, errors, chunk, out);
    if !round::ends(last) {
        return last;
    }
    program.end();
    all_rounds(program, from, name, to, errors, chunk, out)
}

// Runs a program on all that the reader gives, and writes what it makes of it to the writer. What fails is told on standard error, which `errors` is, by
// the input's name or "standard output". Answers whether all was written that there is to write.
pub fn run<P: Program, R: Read, W: Write, E: Print>(
    program: &mut P,
    from: &mut R,
    name: &[u8],
    to: &mut W,
    errors: &E,
) -> bool
    ensures { Answers P.machine 65536 P.ended (P.state program.old) result }
{
    let mut chunk = [0u8; 65536];
    let mut out = [0u8; 65536];
    let last = run_all(program, from, name, to, errors, &mut chunk, &mut out);
    round::is_whole(is_over(program), last)
}
