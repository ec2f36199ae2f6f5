// The listing of a map: bytes in, lines out, cut anywhere. The caller lends a line store for the writer and an area for one band row; the state goes
// in by value and comes back.
#![tactic(auto)]

pub mod line;
pub mod listing;
mod reading;
mod spelling;
mod states;
mod values;
mod writing;
