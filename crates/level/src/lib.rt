// What the levels of both filters call, in a level's own stretch of a line store: heights put into a row, rows moved. The streams above know where
// a level's stretch begins and how many rows it has received; what stands in the stretch, only the level knows.
#![tactic(auto)]

pub mod bounds;
mod copies;
pub mod heights;
pub mod moves;
pub mod sets;
