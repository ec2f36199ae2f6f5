// Pictures in one fixed form: P5, newline, width, space, height, newline, 65535, newline, two bytes a height, the most significant first. `form`
// and `rows` write it, `rewriting` turns any PGM into it.
#![tactic(auto)]

pub mod form;
mod heads;
mod parts;
pub mod rewriting;
pub mod rows;
