// Reading and writing over std's readers and writers, for any program that turns an input into an output. A call that a signal interrupts, or that a reader
// or writer which does not wait turns away, is made again; one that fails is told on standard error, and the answer tells a failure from the end of the
// input.
// No contract can say which bytes a system's calls move. What is said is how many they answered, and what stands in the chunk that is still to be used.
#![tactic(auto)]

mod again;
pub mod input;
pub mod output;
pub mod tell;
