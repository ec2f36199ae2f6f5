// The two passes over a line in halves, in place, for any step. `low` is how many low numbers it has, and o is 0 or 1: which of the two halves begins the line.
// They ask for that, so a caller without it takes a call of `line`. The ends stand outside the loops, and their bounds before them, so that they become vector
// code.
ghost use Rattle.std.specs.Prelude.{◌≡◌, length};
ghost use Rattle.numbers.specs.Signal.{at};
ghost use Rattle.lifting.specs.Passes.{beside_lows, beside_highs, highs_changed, lows_changed};

use crate::place;
use crate::step::Step;

// Each high number n by its low neighbours n + o - 1 and n + o; the first and the last may have one, which counts twice.
pub fn change_highs<S: Step>(line: &mut [i32], low: usize, o: usize)
    requires { beside_lows (length line.old) low o }
    ensures { at line.new ≡ highs_changed S.op o low (length line.old) (at line.old) }
{
    let end = low - o;
    place::step_at::<S>(line, low, 0, place::nearest(low, o));
    for n in 1..end {
        place::step_at::<S>(line, low + n, n + o - 1, n + o);
    }
    let last = low + end.max(1);
    if last < line.len() {
        place::step_at::<S>(line, last, low - 1, low - 1);
    }
}

// Each low number n by its high neighbours n + o - 1 and n + o; the first and the last may have one.
pub fn change_lows<S: Step>(line: &mut [i32], low: usize, o: usize)
    requires { beside_highs (length line.old) low o }
    ensures { at line.new ≡ lows_changed S.op o low (length line.old) (at line.old) }
{
    let high = line.len() - low;
    let end = high - o;
    place::step_at::<S>(line, 0, low, low + place::nearest(high, o));
    for n in 1..end {
        place::step_at::<S>(line, n, low + n + o - 1, low + n + o);
    }
    let last = end.max(1);
    if last < low {
        place::step_at::<S>(line, last, low + high - 1, low + high - 1);
    }
}
