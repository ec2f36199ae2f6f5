// The integer 9/7 lifting of CCSDS 122.0: its definitions and theory, and its calls: on one sample, on a whole line, in place or from one area to another, and
// on a row by the rows beside it. Every call is total: a sum is taken whole and stored modulo 2^32.
#![tactic(auto)]

pub mod line;
pub mod near;
mod place;
mod put;
pub mod rows;
pub mod sample;
pub mod step;
