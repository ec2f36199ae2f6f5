// A header, read a byte at a time. A number may have any number of digits: the one after the largest that a header may have stands for every
// larger one, and such a header is refused.
ghost use Rattle.std.specs.Prelude.{◌≡◌, true, false};
ghost use Rattle.pgm.specs.Header.{side, sized};
ghost use Rattle.refusal.specs.declared.Refusal.TheVariants.{BadInput};
ghost use Rattle.pgm.specs.NextAnswer.{of_next};
ghost use Rattle.pgm.specs.Steps.{staged, begun, expected, commented, gap_ended, gap_read, comment_read, number_ended, in_number, step_of};

use crate::{characters, limits};
use refusal::Refusal;

// What the bytes so far have told. Stage 0 waits for P, 1 for 5, 2 for the first gap, 3 reads the width, 4 the height, 5 the largest value, 6 the
// comment that ends the header.
// Stays: the stage is a number and flags stand beside it, since `step_of` says what a byte does at all of their values.
#[derive(Clone, Copy, Debug, PartialEq, Eq)]
pub struct Header {
    pub stage: usize,
    // Inside a comment?
    pub comment: bool,
    // Has the number that is being read a digit yet, and its value so far?
    pub any: bool,
    pub number: usize,
    pub width: usize,
    pub height: usize,
    pub largest: usize,
}

// What a byte of a header brings.
#[derive(Clone, Copy)]
pub enum Next {
    More(Header),
    // The byte was the header's last: width, height and largest value.
    Done(usize, usize, usize),
}

// No header has this byte here.
#[derive(Clone, Copy, Debug, PartialEq, Eq)]
pub struct Malformed;

impl From<Malformed> for Refusal {
    ghost from_gives = { λ _ e. e ≡ BadInput };

    fn from(_: Malformed) -> Refusal {
        Refusal::BadInput
    }
}

// Is it a width, a height or a largest value?
#[tactic(auto, unfolding(crate::specs::Header::side))]
fn is_side(n: usize) -> bool
    ensures { result ≡ side n }
{
    limits::is_up_to(n, characters::max_field())
}

#[tactic(auto, unfolding(crate::specs::Header::sized))]
fn is_sized(width: usize, height: usize, largest: usize) -> bool
    ensures { result ≡ sized width height largest }
{
    is_side(width) && is_side(height) && is_side(largest)
}

// At a stage, no digit of its number read yet.
fn at_stage(stage: usize, width: usize, height: usize, largest: usize) -> Header
    ensures { result ≡ staged stage false width height largest }
{
    Header {
        stage,
        comment: false,
        any: false,
        number: 0,
        width,
        height,
        largest,
    }
}

// Before the gaps: a byte that is right leads to the next stage.
#[tactic(auto, unfolding(crate::specs::Steps::expected))]
fn expect(right: bool, stage: usize) -> Result<Next, Malformed>
    ensures { of_next result ≡ expected right stage }
{
    if right {
        Ok(Next::More(at_stage(stage, 0, 0, 0)))
    } else {
        Err(Malformed)
    }
}

impl Header {
    pub fn start() -> Self
        ensures { result ≡ begun 0 }
    {
        at_stage(0, 0, 0, 0)
    }

    fn with_comment(self, comment: bool) -> Header
        ensures { result ≡ commented comment self }
    {
        Header { comment, ..self }
    }

    // The last byte of a gap.
    #[tactic(auto, unfolding(crate::specs::Steps::gap_ended))]
    fn end_gap(self) -> Result<Next, Malformed>
        ensures { of_next result ≡ gap_ended self }
    {
        if self.stage != 6 {
            return Ok(Next::More(self.with_comment(false)));
        }
        if is_sized(self.width, self.height, self.largest) {
            return Ok(Next::Done(self.width, self.height, self.largest));
        }
        Err(Malformed)
    }

    // The first byte of a gap.
    #[tactic(auto, unfolding(crate::specs::Steps::gap_read))]
    fn step_gap(self, byte: u8) -> Result<Next, Malformed>
        ensures { of_next result ≡ gap_read self byte }
    {
        if characters::is_space(byte) {
            return self.end_gap();
        }
        if byte == b'#' {
            return Ok(Next::More(self.with_comment(true)));
        }
        Err(Malformed)
    }

    #[tactic(auto, unfolding(crate::specs::Steps::comment_read))]
    fn step_comment(self, byte: u8) -> Result<Next, Malformed>
        ensures { of_next result ≡ comment_read self byte }
    {
        if characters::is_line_end(byte) {
            return self.end_gap();
        }
        Ok(Next::More(self))
    }

    // The number of the stage is read.
    #[tactic(auto, unfolding(crate::specs::Steps::number_ended))]
    fn end_number(self) -> Header
        ensures { result ≡ number_ended self }
    {
        let stage = self.stage;
        if stage == 3 {
            return at_stage(4, self.number, self.height, self.largest);
        }
        if stage == 4 {
            return at_stage(5, self.width, self.number, self.largest);
        }
        at_stage(6, self.width, self.height, self.number)
    }

    #[tactic(auto, unfolding(crate::specs::Steps::in_number))]
    fn step_number(self, byte: u8) -> Result<Next, Malformed>
        ensures { of_next result ≡ in_number self byte }
    {
        if characters::is_digit(byte) {
            return Ok(Next::More(Header {
                comment: false,
                any: true,
                number: characters::with_digit(self.number, byte),
                ..self
            }));
        }
        if self.any {
            return self.end_number().step_gap(byte);
        }
        self.step_gap(byte)
    }

    // The header with one byte more.
    #[tactic(auto, unfolding(crate::specs::Steps::step_of))]
    pub fn step(self, byte: u8) -> Result<Next, Malformed>
        ensures { of_next result ≡ step_of self byte }
    {
        let stage = self.stage;
        if stage == 0 {
            return expect(byte == b'P', 1);
        }
        if stage == 1 {
            return expect(byte == b'5', 2);
        }
        if stage == 2 {
            return at_stage(3, 0, 0, 0).step_gap(byte);
        }
        if self.comment {
            return self.step_comment(byte);
        }
        self.step_number(byte)
    }
}
