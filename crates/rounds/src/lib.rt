// The rounds of a program that turns an input into an output within a constant memory, whatever the program: what a round leaves and what follows from
// it, the laws by which rounds follow each other, and the run of all of them over std's readers and writers.
#![tactic(auto)]

pub mod program;
pub mod round;
pub mod run;
