// Lists each file that its arguments name, after a line with the name: the stored inputs of the listing, held to their expected output by the gate.
#![tactic(auto)]

use descriptors::output;
use descriptors::tell::tell_error;
use std::env::Env;
use std::fs::File;
use std::io::{Error, ErrorKind, Result};
use std::{fs, str};

fn write(rt: HostRuntime, text: &[u8]) -> bool {
    output::send(&mut rt.stdout(), b"standard output", text, &rt.stderr()).is_ok()
}

// A name that is not UTF-8 cannot be told to std.
fn open(rt: HostRuntime, path: &[u8]) -> Result<File> {
    match str::from_utf8(path) {
        Ok(text) => fs::open(&rt, text),
        Err(_) => Err(Error::from(ErrorKind::InvalidFilename)),
    }
}

// A file that is there is listed; one that fails is told on standard error.
fn list_named(rt: HostRuntime, path: &[u8]) {
    match open(rt, path) {
        Ok(mut file) => {
            listing_io::list(&mut file, path, &mut rt.stdout(), &rt.stderr());
        }
        Err(error) => tell_error(&rt.stderr(), path, error),
    }
}

// Answers whether there was such an argument, and its name was written.
fn list_file(rt: HostRuntime, i: usize) -> bool {
    let mut path = [0u8; 4096];
    match rt.arg(i, &mut path) {
        Ok(0) => false,
        Ok(length) => {
            if !write(rt, &path[..length]) || !write(rt, b":\n") {
                return false;
            }
            list_named(rt, &path[..length]);
            true
        }
        Err(_) => false,
    }
}

fn main(rt: HostRuntime) {
    for i in 1..64 {
        if !list_file(rt, i) {
            return;
        }
    }
}
