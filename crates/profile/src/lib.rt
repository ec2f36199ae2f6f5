// The smooth profile of one row: the 9/7 lifting of ITU-T T.800 without its scaling, in 32-bit floats, in one pass over the row.
#![tactic(auto)]

mod carry;
mod ends;
mod pairs;

ghost use Rattle.std.specs.Prelude.{◌≡◌, length};
ghost use Rattle.refusal.specs.Numbers.{answer};
ghost use Rattle.profile.specs.Calls.{floats, profile_question, smoothed};

use refusal::Refusal;
use wavelet::limits;

// Questions 2 and 5, of a row of n heights and an area of m floats.
fn question(n: usize, m: usize) -> Result<(), Refusal>
    ensures { answer result ≡ profile_question n m }
{
    if !limits::is_within(n, limits::max_width()) {
        return Err(Refusal::BadWidth);
    }
    if m < n {
        return Err(Refusal::AreaShort);
    }
    Ok(())
}

// A row's profile at the front of `out`, in the samples' own order.
// A bad width: the row has no height, or more than the largest width; a short area: `out` is shorter than the row.
pub fn smooth(row: &[u16], out: &mut [f32]) -> Result<(), Refusal>
    ensures value { answer result ≡ profile_question (length row.now) (length out.old) }
    ensures out_after { floats out.new ≡ smoothed (answer result) row.now out.old }
{
    question(row.len(), out.len())?;
    if row.len() == 1 {
        out[0] = ends::height(row, 0);
    } else {
        pairs::one_pass(row, out);
    }
    Ok(())
}
