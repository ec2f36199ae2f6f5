// Whether a call that has just failed is to be made again: a signal came between, or what is read or written does not wait and has nothing yet. Then
// another process may run first.
use std::io::{Error, ErrorKind};
use std::thread;

pub fn again(error: &Error) -> bool {
    match error.kind() {
        ErrorKind::Interrupted => true,
        ErrorKind::WouldBlock => {
            thread::yield_now();
            true
        }
        _ => false,
    }
}
