// Whether numbers are surely small, by the or of all of them: the quick answers to questions 7 and 14. The module is private, as `rowwise` is.
ghost use Rattle.std.specs.Prelude.{◌≡◌, true, ℕ, ◌+◌, ◌<◌, ◌≤◌, pos, nat_abs, length};
ghost use Rattle.numbers.specs.Signal.{at};
ghost use Rattle.numbers.specs.Tests.{every};
ghost use Rattle.areas.specs.Areas.{between};
ghost use Rattle.wavelet.specs.Limits.{max_sample};

use wavelet::limits;

// The magnitude of a number, of one below 0 one less: as large as the number's own bits, or their complement.
fn magnitude(v: i32) -> u32
    ensures { nat_abs v ≤ result + 1 }
{
    if v < 0 {
        return (-1 - v) as u32;
    }
    v as u32
}

// Where this says yes, no number is larger than `most`. An or is at least as large as each of its parts; so a no says nothing.
pub fn surely_within(row: &[i32], most: u32) -> bool
    ensures { result ≡ true → (i : ℕ) → i < length row.now → nat_abs (at row.now i) ≤ most }
{
    let mut all: u32 = 0;
    for v in row {
        all |= magnitude(*v);
    }
    all < most
}

// Where this says yes, every number is a height: the or of numbers of which one is below 0 is below 0, and else it is as large as each.
fn surely_heights(row: &[i32]) -> bool
    ensures { result ≡ true → (i : ℕ) → i < length row.now → between (pos 0) (pos max_sample) (at row.now i) ≡ true }
{
    let mut all: i32 = 0;
    for v in row {
        all |= *v;
    }
    (0 <= all) & (all <= limits::MAX_SAMPLE)
}

// Whether every number is a height.
pub fn all_heights(row: &[i32]) -> bool
    ensures { result ≡ every (length row.now) (λ i. between (pos 0) (pos max_sample) (at row.now i)) }
{
    if surely_heights(row) {
        return true;
    }
    areas::ranges::all_between(row, 0, limits::MAX_SAMPLE)
}
