// Numbers tested against a range.
ghost use Rattle.std.specs.Prelude.{◌≡◌, length};
ghost use Rattle.numbers.specs.Signal.{at};
ghost use Rattle.numbers.specs.Tests.{every};
ghost use Rattle.areas.specs.Areas.{between};

// Whether every number of a row lies from `low` to `high`. No branch an element: the answer is gathered.
pub fn all_between(row: &[i32], low: i32, high: i32) -> bool
    ensures { result ≡ every (length row.now) (λ i. between low high (at row.now i)) }
{
    let mut ok = true;
    for v in row {
        ok = ok & (low <= *v) & (*v <= high);
    }
    ok
}
