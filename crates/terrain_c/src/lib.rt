// The C interface, declared in include/terrain.h: `terrain`'s calls, exported one by one with the same promise. Written by tools/exports.
#![tactic(auto)]

mod file_calls;
mod fixed_form;
mod line;
mod loader_calls;
mod map;
mod near;
mod reader_calls;
mod rounding_calls;
mod saver_calls;
mod smooth;
mod strokes_calls;
mod turns_calls;
mod version;
mod writer_calls;
