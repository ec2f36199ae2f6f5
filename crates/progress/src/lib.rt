// How far a writer has come, in numbers alone: the sets that its levels have made, the band that is next, the level that a set is handed out of, and what waits
// there. What stands in the store is the writer's own.
#![tactic(auto)]

pub mod counts;
pub mod levels;
pub mod waits;
