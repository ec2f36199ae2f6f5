// Samples of one byte or two, the most significant first. A state may hold half a sample, so the bytes may be cut anywhere.
ghost use Rattle.std.specs.Prelude.{◌≡◌};
ghost use Rattle.refusal.specs.declared.Refusal.TheVariants.{BadSample};
ghost use Rattle.pgm.specs.SampleAnswer.{of_sample};
ghost use Rattle.pgm.specs.Samples.{no_byte, sampled, sample_of};

use crate::runs;
use refusal::Refusal;

// Stays: `half` stands beside `high`, since `sample_of` says what a byte does at all of their values.
#[derive(Clone, Copy, Debug, PartialEq, Eq)]
pub struct Samples {
    // The header's largest value.
    pub largest: usize,
    pub half: bool,
    pub high: u8,
}

#[derive(Clone, Copy)]
pub enum Sample {
    // The first byte of two.
    Half(Samples),
    // The last byte: a whole sample, and no byte is held.
    Height(u16),
}

// A whole sample that exceeds the largest value.
#[derive(Clone, Copy, Debug, PartialEq, Eq)]
pub struct TooLarge;

impl From<TooLarge> for Refusal {
    ghost from_gives = { λ _ e. e ≡ BadSample };

    fn from(_: TooLarge) -> Refusal {
        Refusal::BadSample
    }
}

impl Samples {
    pub fn start(largest: usize) -> Self
        ensures { result ≡ no_byte largest }
    {
        Samples {
            largest,
            half: false,
            high: 0,
        }
    }

    #[tactic(auto, unfolding(crate::specs::Samples::sample_of))]
    pub fn step(self, byte: u8) -> Result<Sample, TooLarge>
        ensures { of_sample result ≡ sample_of self byte }
    {
        if !runs::is_wide(self.largest) {
            return checked(runs::single(byte), self.largest);
        }
        if self.half {
            return checked(runs::joined(self.high, byte), self.largest);
        }
        Ok(Sample::Half(Samples {
            half: true,
            high: byte,
            ..self
        }))
    }
}

#[tactic(auto, unfolding(crate::specs::Samples::sampled))]
fn checked(sample: u16, largest: usize) -> Result<Sample, TooLarge>
    ensures { of_sample result ≡ sampled largest sample }
{
    if runs::is_within(sample, largest) {
        return Ok(Sample::Height(sample));
    }
    Err(TooLarge)
}
