// The limits of the whole map and of the view. A contract that names a constant follows an edit of it, so each is pinned to the definition's number.
ghost use Rattle.std.specs.Prelude.{◌≡◌, pos};
ghost use Rattle.wavelet.specs.Limits.{max_width, max_height, max_levels, max_sample};
ghost use Rattle.refusal.specs.Numbers.{answer};
ghost use Rattle.wavelet.specs.Questions.{within, size_question};

use refusal::Refusal;

pub const MAX_WIDTH: usize = 2049;

pub const MAX_HEIGHT: usize = 4294967295;

pub const MAX_LEVELS: usize = 5;

// The largest height.
pub const MAX_SAMPLE: i32 = 65535;

pub fn max_width() -> usize
    ensures { result ≡ max_width }
{
    MAX_WIDTH
}

pub fn max_height() -> usize
    ensures { result ≡ max_height }
{
    MAX_HEIGHT
}

pub fn max_levels() -> usize
    ensures { result ≡ max_levels }
{
    MAX_LEVELS
}

pub fn max_sample() -> i32
    ensures { result ≡ pos max_sample }
{
    MAX_SAMPLE
}

// Is n from 1 to `most`?
pub fn is_within(n: usize, most: usize) -> bool
    ensures { result ≡ within 1 most n }
{
    if n == 0 {
        return false;
    }
    n <= most
}

// Questions 2, 3 and 4, in this order.
pub fn size_question(width: usize, height: usize, levels: usize) -> Result<(), Refusal>
    ensures { answer result ≡ size_question width height levels }
{
    if !is_within(width, MAX_WIDTH) {
        return Err(Refusal::BadWidth);
    }
    if !is_within(height, MAX_HEIGHT) {
        return Err(Refusal::BadHeight);
    }
    if !is_within(levels, MAX_LEVELS) {
        return Err(Refusal::BadLevels);
    }
    Ok(())
}
