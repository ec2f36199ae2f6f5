// An output that takes all of some bytes, in as many writes as it wants, or fails.
ghost use Rattle.std.specs.Prelude.{◌≡◌, ◌+◌, ◌≤◌, ◌<◌, length, IfSome, IfOk, IfErr};

use crate::again;
use crate::tell::{tell, tell_error};
use std::io::{Print, Write};

// Not all of the bytes were taken: so many of them were, in sum.
#[derive(Clone, Copy, Debug, PartialEq, Eq)]
pub struct Cut {
    pub count: usize,
}

// What a write took, 0 bytes where it is to be made again, and the place after that.
#[derive(Clone, Copy)]
struct Put {
    count: usize,
    to: usize,
}

// One write of the bytes from place `from` on. None where it is the last: it failed, or took nothing without an error.
fn try_write<W: Write, E: Print>(
    to: &mut W,
    name: &[u8],
    bytes: &[u8],
    from: usize,
    errors: &E,
) -> Option<Put>
    requires { from ≤ length bytes.now }
    ensures { IfSome result (λ put. (put.to ≡ from + put.count) × (put.to ≤ length bytes.now)) }
{
    match to.write(&bytes[from..]) {
        Ok(0) => {
            tell(errors, name, "nothing more is taken");
            None
        }
        Ok(count) => Some(Put {
            count,
            to: from + count,
        }),
        Err(error) => {
            if again::again(&error) {
                return Some(Put { count: 0, to: from });
            }
            tell_error(errors, name, error);
            None
        }
    }
}

// Writes all of the bytes, in as many writes as the writer wants: how many the writes took, in sum, which is all of them. What fails is told by the output's
// name.
pub fn send<W: Write, E: Print>(
    to: &mut W,
    name: &[u8],
    bytes: &[u8],
    errors: &E,
) -> Result<usize, Cut>
    ensures whole { IfOk result (λ count. count ≡ length bytes.now) }
    ensures cut { IfErr result (λ cut. cut.count < length bytes.now) }
{
    let mut count = 0;
    for _ in 0..u64::MAX {
        if count == bytes.len() {
            break;
        }
        match try_write(to, name, bytes, count, errors) {
            Some(put) => count = put.to,
            None => break,
        }
    }
    if count < bytes.len() {
        return Err(Cut { count });
    }
    Ok(count)
}
