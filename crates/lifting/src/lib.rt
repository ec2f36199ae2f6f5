// The reversible 5/3 lifting of ITU-T T.800: its definitions, on a line and on the grid, its theory, and its calls: on one sample, on a whole line, in place or
// from one area to another, and on the columns of an area a row at a time, a level of one row among them. Lifting of two steps in general stands here too.
// Every call is total: a sum is taken whole and stored modulo 2^32.
#![tactic(auto)]

pub mod halves;
pub mod line;
pub mod pairs;
pub mod passes;
mod place;
pub mod rows;
pub mod sample;
pub mod single;
pub mod step;
