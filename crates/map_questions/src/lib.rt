// The questions that both ways of a whole map ask of its shape and its areas.
#![tactic(auto)]

ghost use Rattle.std.specs.Prelude.{◌≡◌};
ghost use Rattle.refusal.specs.Numbers.{answer};
ghost use Rattle.map_questions.specs.Calls.{shape_questions, size_questions};

use refusal::Refusal;
use wavelet::limits;

// Questions 2, 3, 18 and 4: the first that says no.
fn shape_question(filter: usize, width: usize, height: usize, levels: usize) -> Result<(), Refusal>
    ensures { answer result ≡ shape_questions filter width height levels 0 }
{
    if !limits::is_within(width, limits::MAX_WIDTH) {
        return Err(Refusal::BadWidth);
    }
    if !limits::is_within(height, limits::MAX_HEIGHT) {
        return Err(Refusal::BadHeight);
    }
    if !filters::is_filter(filter) {
        return Err(Refusal::BadFilter);
    }
    if !limits::is_within(levels, filters::most_levels(filter)) {
        return Err(Refusal::BadLevels);
    }
    Ok(())
}

// And question 5: a, b and c are the lengths of the areas.
pub fn size_question(
    filter: usize,
    width: usize,
    height: usize,
    levels: usize,
    a: usize,
    b: usize,
    c: usize,
) -> Result<(), Refusal>
    ensures { answer result ≡ size_questions filter width height levels a b c 0 }
{
    shape_question(filter, width, height, levels)?;
    let n = width * height;
    if a < n || b < n || c < n {
        return Err(Refusal::AreaShort);
    }
    Ok(())
}
