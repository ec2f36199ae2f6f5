// An input read in chunks. What was read and is not used yet stands in the chunk, which is read anew only when nothing of it is left.
ghost use Rattle.std.specs.Prelude.{◌≡◌, ◌≤◌, length, IfSome};
ghost use Rattle.descriptors.specs.Left.{used_of, reads_now, count_of, is_end, is_failed, came, Fills};

use crate::again;
use crate::tell::{tell, tell_error};
use std::io::{Print, Read};

// The bytes of the chunk from `from` to `to`.
#[derive(Clone, Copy)]
pub struct Left {
    pub from: usize,
    pub to: usize,
}

// What came of a read: nothing, where there was none.
#[derive(Clone, Copy, Debug, PartialEq, Eq)]
pub enum Came {
    Nothing,
    Bytes(usize),
    End,
    Failed,
}

impl Came {
    pub fn count(self) -> usize
        ensures { result ≡ count_of self }
    {
        match self {
            Came::Bytes(count) => count,
            _ => 0,
        }
    }

    pub fn is_end(self) -> bool
        ensures { result ≡ is_end self }
    {
        matches!(self, Came::End)
    }

    pub fn is_failed(self) -> bool
        ensures { result ≡ is_failed self }
    {
        matches!(self, Came::Failed)
    }
}

// What a fill left: what is to be used now, and what came of its read.
#[derive(Clone, Copy)]
pub struct Filled {
    pub left: Left,
    pub came: Came,
}

// The bytes left once `count` of them are used.
pub fn used(left: Left, count: usize) -> Left
    ensures { result ≡ used_of left count }
{
    if left.from <= left.to {
        if count <= left.to - left.from {
            return Left {
                from: left.from + count,
                to: left.to,
            };
        }
    }
    Left {
        from: left.to,
        to: left.to,
    }
}

// Reads, and again while a call is to be made again: how many bytes came, None where it failed. A proved loop has to end, so it counts its turns up to
// a number that no run uses up.
fn read_some<R: Read, E: Print>(
    from: &mut R,
    name: &[u8],
    chunk: &mut [u8],
    errors: &E,
) -> Option<usize>
    ensures { IfSome result (λ n. n ≤ length chunk.new) }
{
    for _ in 0..u64::MAX {
        match from.read(chunk) {
            Ok(count) => return Some(count),
            Err(error) => {
                if !again::again(&error) {
                    tell_error(errors, name, error);
                    return None;
                }
            }
        }
    }
    tell(errors, name, "tried too often");
    None
}

fn reads_now(left: Left, wanted: bool) -> bool
    ensures { result ≡ reads_now wanted left }
{
    if wanted {
        return left.to <= left.from;
    }
    false
}

// No bytes are the input's end; a failure is not.
fn what_came(got: Option<usize>) -> Came
    ensures { result ≡ came got }
{
    match got {
        None => Came::Failed,
        Some(0) => Came::End,
        Some(count) => Came::Bytes(count),
    }
}

// Reads, if nothing is left and more is wanted. What fails is told by the input's name.
pub fn fill<R: Read, E: Print>(
    left: Left,
    wanted: bool,
    from: &mut R,
    name: &[u8],
    chunk: &mut [u8],
    errors: &E,
) -> Filled
    ensures { Fills wanted left chunk.old chunk.new result }
{
    if reads_now(left, wanted) {
        let came = what_came(read_some(from, name, chunk, errors));
        return Filled {
            left: Left {
                from: 0,
                to: came.count(),
            },
            came,
        };
    }
    Filled {
        left,
        came: Came::Nothing,
    }
}
