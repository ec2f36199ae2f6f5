// Loading a ground file (docs/FORMAT.md), from its bytes: a band row as its bytes come in, the checksum, and the loader over them.
#![tactic(auto)]

mod header;
pub mod loader;
mod parts;
mod questions;
pub mod rows;
mod steps;
mod sums;
mod widths;
