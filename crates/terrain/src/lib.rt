// The C interface, declared in include/terrain.h: each call is a thin shell over a call of the crates below, with the same promise. A file for each layer.
#![tactic(auto)]

pub mod file_calls;
pub mod fixed_form;
pub mod line;
pub mod loader_calls;
pub mod map;
pub mod near;
pub mod reader_calls;
pub mod rounding_calls;
pub mod saver_calls;
pub mod smooth;
pub mod strokes_calls;
pub mod turns_calls;
pub mod version;
pub mod writer_calls;
