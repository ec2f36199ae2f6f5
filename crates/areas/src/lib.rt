// What is done to stretches of numbers: copied, cleared, tested, laid in halves and interleaved into their own order, heights read and written. Every call is
// total: one that writes is refused where an area is too short, with nothing changed. That is one test before the loop.
#![tactic(auto)]

pub mod copies;
pub mod elements;
pub mod height_rows;
pub mod lines;
mod place;
pub mod ranges;
pub mod rows;
