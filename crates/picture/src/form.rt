// The fixed form's header, into an area of any length: what does not fit is written by a further call, from where the last one ended.
ghost use Rattle.std.specs.Prelude.{◌≡◌};
ghost use Rattle.refusal.specs.Numbers.{answer};
ghost use Rattle.picture.specs.Form.{head_question, HeadPut, of_put, answered};

use crate::heads;
use refusal::Refusal;
use wavelet::limits;

// Questions 2 and 3.
#[tactic(auto, unfolding(crate::specs::Form::head_question))]
fn head_question(width: usize, height: usize) -> Result<(), Refusal>
    ensures { answer result ≡ head_question width height }
{
    if !limits::is_within(width, limits::max_width()) {
        return Err(Refusal::BadWidth);
    }
    if !limits::is_within(height, limits::max_height()) {
        return Err(Refusal::BadHeight);
    }
    Ok(())
}

// The header's bytes from place `from` on, as many as there are and as the area has room for: how many were written.
pub fn head(width: usize, height: usize, from: usize, out: &mut [u8]) -> Result<usize, Refusal>
    ensures { HeadPut width height from out.old out.new (of_put result) }
{
    head_question(width, height)?;
    Ok(heads::put_head(width, height, from, out))
}

// The same, with the number of bytes written in a place of its own; a refused call leaves that as it was.
pub fn head_told(
    width: usize,
    height: usize,
    from: usize,
    out: &mut [u8],
    written: &mut usize,
) -> Result<(), Refusal>
    ensures head_put { HeadPut width height from out.old out.new (answered (answer result) written.new) }
    ensures written_unchanged { (answer result ≡ 0 → ⊥) → written.new ≡ written.old }
{
    *written = head(width, height, from, out)?;
    Ok(())
}
