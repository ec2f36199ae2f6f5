// The input of a program that reads a picture, a byte at a time: a line with the number of levels, where the program takes one (the listing, document 01;
// not the rewriting, document 02, Q-7), then a header and heights.
ghost use Rattle.std.specs.Prelude.{◌≡◌};
ghost use Rattle.pgm.specs.InputSteps.{start_at, phased, level_digit, levels_read, line_feed_read, shape_read, header_read, height_read, read_byte};
ghost use Rattle.pgm.specs.InputSteps.{input_ended, heights_came};
ghost use Rattle.pgm.specs.StepAnswer.{of_step};
ghost use Rattle.pgm.specs.EndedAnswer.{of_ended};

use crate::header::{Header, Next};
use crate::samples::{Sample, Samples};
use crate::{characters, limits};
use refusal::Refusal;

// Stays: `phase` is a number, since `read_byte` and `input_ended` say what is done at every one.
#[derive(Clone, Copy, Debug, PartialEq, Eq)]
pub struct Input {
    // 0 waits for the digit, 1 for the line feed, 2 reads the header, 3 the heights, 4 reads no more
    pub phase: usize,
    pub levels: usize,
    pub header: Header,
    // heights still to come
    pub left: usize,
    pub samples: Samples,
}

// What a byte brings.
#[derive(Clone, Copy)]
pub enum Step {
    More(Input),
    // The header ended: width and height.
    Begun(Input, usize, usize),
    Height(Input, u16),
}

// A question says no, 15 or 16: the input then, which reads no more.
#[derive(Clone, Copy, Debug, PartialEq, Eq)]
pub struct Refused {
    pub input: Input,
    pub why: Refusal,
}

// Why the end of the input does not complete it.
#[derive(Clone, Copy, Debug, PartialEq, Eq)]
pub enum Incomplete {
    // Not all heights came: question 15 says no.
    Short(Input),
    // A question said no before, or the input had ended already.
    Before,
}

// A digit from 1 to `most`?
#[tactic(auto, unfolding(crate::specs::InputSteps::level_digit))]
fn is_level(byte: u8, most: usize) -> bool
    ensures { result ≡ level_digit most byte }
{
    characters::is_digit(byte) && limits::is_up_to(characters::digit_value(byte), most)
}

impl Input {
    // From phase 0, or from phase 2 where there is no line for the levels.
    pub fn start(phase: usize) -> Self
        ensures { result ≡ start_at phase }
    {
        Input {
            phase,
            levels: 0,
            header: Header::start(),
            left: 0,
            samples: Samples::start(0),
        }
    }

    pub fn at_phase(self, phase: usize) -> Self
        ensures { result ≡ phased phase self }
    {
        Input { phase, ..self }
    }

    // A question says no: no more is read.
    fn refused(self, why: Refusal) -> Refused
        ensures { (result.input ≡ phased 4 self) × (result.why ≡ why) }
    {
        Refused {
            input: self.at_phase(4),
            why,
        }
    }

    // Some heights came whole.
    pub fn took(self, count: usize) -> Self
        ensures { result ≡ heights_came count self }
    {
        Input {
            left: self.left.saturating_sub(count),
            samples: Samples::start(self.samples.largest),
            ..self
        }
    }

    #[tactic(auto, unfolding(crate::specs::InputSteps::levels_read))]
    fn read_levels(self, byte: u8, most: usize) -> Result<Step, Refused>
        ensures { of_step result ≡ levels_read most self byte }
    {
        if !is_level(byte, most) {
            return Err(self.refused(Refusal::BadInput));
        }
        Ok(Step::More(Input {
            phase: 1,
            levels: characters::digit_value(byte),
            ..self
        }))
    }

    #[tactic(auto, unfolding(crate::specs::InputSteps::line_feed_read))]
    fn read_line_feed(self, byte: u8) -> Result<Step, Refused>
        ensures { of_step result ≡ line_feed_read self byte }
    {
        if byte == b'\n' {
            Ok(Step::More(self.at_phase(2)))
        } else {
            Err(self.refused(Refusal::BadInput))
        }
    }

    #[tactic(auto, unfolding(crate::specs::InputSteps::shape_read))]
    fn begin(self, width: usize, height: usize, largest: usize) -> Result<Step, Refused>
        ensures { of_step result ≡ shape_read self width height largest }
    {
        let Some(left) = limits::cells(width, height) else {
            return Err(self.refused(Refusal::BadInput));
        };
        Ok(Step::Begun(
            Input {
                phase: 3,
                left,
                samples: Samples::start(largest),
                ..self
            },
            width,
            height,
        ))
    }

    #[tactic(auto, unfolding(crate::specs::InputSteps::header_read))]
    fn read_header(self, byte: u8) -> Result<Step, Refused>
        ensures { of_step result ≡ header_read self byte }
    {
        match self.header.step(byte) {
            Ok(Next::More(header)) => Ok(Step::More(Input {
                phase: 2,
                header,
                ..self
            })),
            Ok(Next::Done(width, height, largest)) => self.begin(width, height, largest),
            Err(malformed) => Err(self.refused(malformed.into())),
        }
    }

    #[tactic(auto, unfolding(crate::specs::InputSteps::height_read))]
    fn read_height(self, byte: u8) -> Result<Step, Refused>
        ensures { of_step result ≡ height_read self byte }
    {
        if self.left == 0 {
            return Err(self.refused(Refusal::BadInput));
        }
        match self.samples.step(byte) {
            Ok(Sample::Half(samples)) => Ok(Step::More(Input {
                phase: 3,
                samples,
                ..self
            })),
            Ok(Sample::Height(height)) => Ok(Step::Height(
                Input {
                    phase: 3,
                    left: self.left - 1,
                    samples: Samples::start(self.samples.largest),
                    ..self
                },
                height,
            )),
            Err(large) => Err(self.refused(large.into())),
        }
    }

    // One byte more; the levels are 1 to `most`.
    #[tactic(auto, unfolding(crate::specs::InputSteps::read_byte))]
    pub fn read(self, byte: u8, most: usize) -> Result<Step, Refused>
        ensures { of_step result ≡ read_byte most self byte }
    {
        let phase = self.phase;
        if phase == 0 {
            return self.read_levels(byte, most);
        }
        if phase == 1 {
            return self.read_line_feed(byte);
        }
        if phase == 2 {
            return self.read_header(byte);
        }
        if phase == 3 {
            return self.read_height(byte);
        }
        Ok(Step::More(self))
    }

    // No byte more: nothing is read after it.
    #[tactic(auto, unfolding(crate::specs::InputSteps::input_ended))]
    pub fn end(self) -> Result<Input, Incomplete>
        ensures { of_ended result ≡ input_ended self }
    {
        let phase = self.phase;
        if 3 < phase {
            return Err(Incomplete::Before);
        }
        if phase < 3 {
            return Err(Incomplete::Short(self.at_phase(4)));
        }
        if 0 < self.left {
            return Err(Incomplete::Short(self.at_phase(4)));
        }
        Ok(self.at_phase(4))
    }
}
