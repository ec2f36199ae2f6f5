// The lifting of a line with each sum stored in 32 bits, so that its loops stay in 32-bit lanes: as the line calls of crate `lifting` where no sum is too
// large, and none of a map is. The module is private, as `rowwise` is.
ghost use Rattle.std.specs.Prelude.{◌≡◌, ◌+◌, ◌*◌, ◌≤◌, ℤ, length};
ghost use Rattle.numbers.specs.Signal.{at, windowed, spliced};
ghost use Rattle.lifting.specs.Grid.{side};
ghost use Rattle.map_levels.specs.Sweep.{short_predicted, short_updated, short_lifted};
ghost use Rattle.map_levels.specs.SweepBack.{short_unpredicted, short_unupdated};

use lifting::step::Step;
use lifting::{line, passes, sample};
use wavelet::sizes;

pub fn predict(x: i32, a: i32, b: i32) -> i32
    ensures { result ≡ short_predicted x a b }
{
    sample::less(x, sample::more(a, b) >> 1)
}

pub fn update(x: i32, a: i32, b: i32) -> i32
    ensures { result ≡ short_updated x a b }
{
    sample::more(x, sample::more(sample::more(a, b), 2) >> 2)
}

// And back.
pub fn unpredict(x: i32, a: i32, b: i32) -> i32
    ensures { result ≡ short_unpredicted x a b }
{
    sample::more(x, sample::more(a, b) >> 1)
}

pub fn unupdate(x: i32, a: i32, b: i32) -> i32
    ensures { result ≡ short_unupdated x a b }
{
    sample::less(x, sample::more(sample::more(a, b), 2) >> 2)
}

// The two forward as steps of a pass over a line.
struct ShortPredict;

impl Step for ShortPredict {
    ghost op = { short_predicted };

    fn step(x: i32, a: i32, b: i32) -> i32 {
        predict(x, a, b)
    }
}

struct ShortUpdate;

impl Step for ShortUpdate {
    ghost op = { short_updated };

    fn step(x: i32, a: i32, b: i32) -> i32 {
        update(x, a, b)
    }
}

fn lift(line: &mut [i32], start: usize)
    ensures { at line.new ≡ short_lifted (side start (length line.old)) (at line.old) }
{
    let n = line.len();
    if n < 2 {
        line::lift(line, start);
        return;
    }
    let b = start % 2;
    let low = sizes::low_count(start, n);
    passes::change_highs::<ShortPredict>(line, low, 1 - b);
    passes::change_lows::<ShortUpdate>(line, low, b);
}

// Row r of an area, in halves, lifted in place. That it is called in two places keeps it a function by itself; inlined, it would take the
// copies before it along, which the compiler makes calls of the C library only where it sees that the lines are a local array.
pub fn lift_row(area: &mut [i32], stride: usize, x: usize, width: usize, r: usize)
    requires { (width ≤ stride) × (r * stride + width ≤ length area.old) }
    ensures { at area.new ≡
        spliced (r * stride) width (short_lifted (side x width) (windowed (r * stride) width (at area.old))) (at area.old) }
{
    let a = r * stride;
    let e = a + width;
    lift(&mut area[a..e], x);
}
