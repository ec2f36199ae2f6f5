// The way back that limits each value to its level's range where the strict way gives 14: its definitions, what is done to a row of it, and how far apart two
// lines are on it. Document 02, Q-10.
#![tactic(auto)]

ghost use Rattle.std.specs.Prelude.{◌≡◌, length};
ghost use Rattle.numbers.specs.Signal.{at};
ghost use Rattle.lifting.specs.Halves.{fronted};
ghost use Rattle.tolerance.specs.Limits.{clamped};

// The number from `least` to `most` that is nearest to v.
fn limit(v: i32, least: i32, most: i32) -> i32
    ensures { result ≡ clamped least most v }
{
    if v < least {
        return least;
    }
    if most < v {
        return most;
    }
    v
}

// Every number of a row limited.
pub fn limit_all(row: &mut [i32], least: i32, most: i32)
    ensures { at row.new ≡
        fronted (length row.old) (λ i. clamped least most (at row.old i)) (at row.old) }
{
    for v in row.iter_mut() {
        *v = limit(*v, least, most);
    }
}
