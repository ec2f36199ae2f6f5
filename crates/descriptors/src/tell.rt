// What fails is told by its name, on standard error where `errors` is that. That it could not be told is told nowhere.
use std::fmt;
use std::fmt::{Display, Write};
use std::io::{Error, Print};

pub fn tell<E: Print, D: Display + Drop>(errors: &E, name: &[u8], what: D) {
    let _ = errors.write_all(name);
    let _ = errors.write_all(b": ");
    let _ = errors.println(what);
}

// What stands before the number of an error.
#[derive(Drop)]
struct Words<'a, E> {
    errors: &'a E,
    over: bool,
}

impl<E: Print> fmt::Write for Words<'_, E> {
    fn write_str(&mut self, s: &str) -> fmt::Result {
        self.over = self.over || s == " (os error ";
        if !self.over {
            let _ = self.errors.write_all(s.as_bytes());
        }
        Ok(())
    }
}

// An error of the system, by its words alone.
pub fn tell_error<E: Print>(errors: &E, name: &[u8], error: Error) {
    let _ = errors.write_all(name);
    let _ = errors.write_all(b": ");
    let mut words = Words {
        errors,
        over: false,
    };
    let _ = write!(words, "{error}");
    let _ = errors.write_all(b"\n");
}
