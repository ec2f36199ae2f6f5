// One level on the way back, of either filter, in its own stretch of a line store: the rows of w numbers that the filter keeps, each in halves. A filter is
// told by its number, 0 the 5/3, any other the integer 9/7, and branched on where a row is changed and where the rows are counted.
#![tactic(auto)]

pub mod back;
mod neighbours;
mod range;
mod rows;
mod tolerant;
mod work;
