// The lifting steps on one place of an area, changed by two others, and what a start on the grid comes to.
// The module is private: only the loops of this crate, which meet what is required, can call it.
ghost use Rattle.std.specs.Prelude.{◌≡◌, ◌<◌, length, set};
ghost use Rattle.numbers.specs.Signal.{at, both};
ghost use Rattle.lifting.specs.Line.{lo};
ghost use Rattle.lifting.specs.Pairs.{column_in, lifted_at, unlifted_at};
ghost use Rattle.lifting.specs.Ranges.{within};
ghost use Rattle.lifting.specs.Grid.{side, count};
ghost use Rattle.lifting.specs.Passes.{near};

use crate::pairs::Pair;
use crate::sample;
use crate::step::Step;

pub fn step_at<S: Step>(area: &mut [i32], p: usize, a: usize, b: usize)
    requires { (p < length area.old) × (a < length area.old) × (b < length area.old) }
    ensures { area.new ≡ set area.old p (S.op (at area.old p) (at area.old a) (at area.old b)) }
{
    area[p] = S::step(area[p], area[a], area[b]);
}

// A high number predicted by two low ones, the first of these updated by another high number and this one, which is answered: so a loop has it at hand.
pub fn lift_at(area: &mut [i32], p: Pair) -> i32
    requires { column_in (length area.old) p.high p.low p.right p.before }
    ensures value { result ≡ at area.new p.high }
    ensures area_after { at area.new ≡ lifted_at p.high p.low p.right p.before (at area.old) }
{
    let x = area[p.low];
    let d = sample::predict(area[p.high], x, area[p.right]);
    area[p.high] = d;
    area[p.low] = sample::update(x, area[p.before], d);
    d
}

// The way back: a low number without its update by two high ones, the first of these without its prediction by another low number and this one. It answers
// whether both lie from `least` to `most`.
pub fn unlift_at(area: &mut [i32], p: Pair, least: i32, most: i32) -> bool
    requires { column_in (length area.old) p.high p.low p.right p.before }
    ensures value { result ≡ both (within least most (at area.new p.low)) (within least most (at area.new p.high)) }
    ensures area_after { at area.new ≡ unlifted_at p.high p.low p.right p.before (at area.old) }
{
    let d = area[p.high];
    let s = sample::unupdate(area[p.low], d, area[p.right]);
    area[p.low] = s;
    let x = sample::unpredict(d, area[p.before], s);
    area[p.high] = x;
    sample::is_within(s, least, most) & sample::is_within(x, least, most)
}

// How many of n samples are low, the first of them at coordinate `start`.
pub fn lows(n: usize, start: usize) -> usize
    ensures { result ≡ count lo (side start n) }
{
    if start % 2 == 0 {
        return n - n / 2;
    }
    n / 2
}

// The number of m that is nearest to k.
pub fn nearest(m: usize, k: usize) -> usize
    requires { 0 < m }
    ensures { result ≡ near m k }
{
    if k < m {
        return k;
    }
    m - 1
}
