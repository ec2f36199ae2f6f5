// Binary PGM (Netpbm), one byte a sample or two: the bytes of a header one by one, header and samples read a byte at a time, and a stretch of bytes as the
// samples that it has. A state goes in by value and comes back, so the input may be cut anywhere.
#![tactic(auto)]

pub mod characters;
pub mod header;
pub mod input;
pub mod limits;
pub mod runs;
pub mod samples;
