// The columns of a level by the integer 9/7 lifting of CCSDS 122.0, all of them in one sweep over the rows of an area, row by row in the order of memory.
#![tactic(auto)]

mod back;
pub mod columns;
mod forth;
