// The states of writer, reader, turn-giver, saver and loader as a C caller holds them: sixteen numbers, a turn-giver four, saver and loader thirty-two;
// unpacked, used by value, packed again. docs/STATE.md lists them.
#![tactic(auto)]

mod array;
pub mod loader_state;
pub mod reader_state;
pub mod saver_state;
pub mod turns_state;
pub mod writer_state;
