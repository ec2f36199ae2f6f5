// What was compared, and how often it differed.
use crate::area;
use std::io;
use std::io::Print;

#[derive(Clone, Copy, Default)]
pub struct Tally {
    pub runs: u64,
    pub numbers: u64,
    pub differences: u64,
}

impl Tally {
    // One run more.
    pub fn more(self, numbers: u64, differences: u64) -> Tally {
        Tally {
            runs: area::sum(self.runs, 1),
            numbers: area::sum(self.numbers, numbers),
            differences: area::sum(self.differences, differences),
        }
    }

    // A run that could not be made counts as a difference.
    pub fn failed(self) -> Tally {
        self.more(0, 1)
    }

    // "whole map: 10 runs, 20 numbers, 0 differences"
    pub fn print<P: Print>(self, rt: &P, name: &[u8]) -> io::Result<()> {
        let runs = self.runs;
        let numbers = self.numbers;
        let differences = self.differences;
        rt.write_all(name)?;
        println!(rt; ": {runs} runs, {numbers} numbers, {differences} differences")
    }
}
