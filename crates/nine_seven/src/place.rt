// A lifting step on one place of an area, changed by others, and which low numbers a high one goes by.
// The module is private: only the loops of this crate, which meet what is required, can call it.
ghost use Rattle.std.specs.Prelude.{◌≡◌, ◌+◌, ◌-◌, ◌<◌, ◌≤◌, length, set};
ghost use Rattle.numbers.specs.Signal.{at};
ghost use Rattle.lifting.specs.Passes.{near};
ghost use Rattle.nine_seven.specs.Passes.{far_left, far_right};

use crate::near;
use crate::step::WideStep;

// A high number at place p, by any step.
pub fn step_at<S: WideStep>(area: &mut [i32], p: usize, a: usize, b: usize, c: usize, e: usize)
    requires { (p < length area.old) × (a < length area.old) × (b < length area.old) × (c < length area.old) × (e < length area.old) }
    ensures { area.new ≡ set area.old p (S.op (at area.old p) (at area.old a) (at area.old b) (at area.old c) (at area.old e)) }
{
    area[p] = S::step(area[p], area[a], area[b], area[c], area[e]);
}

// Of `low` low numbers the one before high number n. Each of these by itself, so that it goes into the loops over the ends of a line,
pub fn left(low: usize, o: usize, n: usize) -> usize
    requires { o ≤ 1 }
    ensures { result ≡ near low (n + o - 1) }
{
    if n == 0 {
        return 0;
    }
    near::nearest(low, n - 1 + o)
}

// the one before that, mirrored at the first,
pub fn far_left(low: usize, o: usize, n: usize) -> usize
    requires { o ≤ 1 }
    ensures { result ≡ far_left low o n }
{
    if n == 0 {
        return near::nearest(low, 1);
    }
    near::one_before(n - 1 + o)
}

// and the second after it, mirrored at the last.
pub fn far_right(low: usize, high: usize, o: usize, n: usize) -> usize
    requires { (o ≤ 1) × (n < high) }
    ensures { result ≡ far_right low high o n }
{
    if n + 1 < high {
        return near::nearest(low, n + 1 + o);
    }
    near::one_before(near::one_before(low))
}
