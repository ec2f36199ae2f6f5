// A pair of rows of an area lifted along the columns in one pass, so that a number is read and stored once. Rows are those of `rows`.
// Each call forward predicts row `high` by rows `low` and `right`, and updates row `low` by row `before` and by row `high`. It refuses, with nothing changed,
// where a row does not lie in the area or is wider than the stride, or where rows `high` and `low` are one.
ghost use Rattle.std.specs.Prelude.{◌≡◌, ℕ, ℤ, length};
ghost use Rattle.numbers.specs.Signal.{at, pick};
ghost use Rattle.refusal.specs.Numbers.{answer};
ghost use Rattle.lifting.specs.Pairs.{pair_fits, pair_lifted, pair_copied, pair_unlifted, pair_within, column_in, lifted_at, copied_at, each_column};

use crate::{place, rows};
use refusal::Refusal;

// The four rows of a pair by number, or the four places of a column of theirs: the high and the low row that are lifted, the low row on the other side of the
// high one, and the high row on the other side of the low one.
#[derive(Clone, Copy)]
pub struct Pair {
    pub high: usize,
    pub low: usize,
    pub right: usize,
    pub before: usize,
}

// Whether the four rows lie within n numbers, and the two that are changed are two.
fn pair_fits(n: usize, stride: usize, width: usize, pair: Pair) -> bool
    ensures { result ≡ pair_fits n stride width pair.high pair.low pair.right pair.before }
{
    if pair.low == pair.high {
        return false;
    }
    if rows::rows_fit(n, stride, width, pair.high, pair.low, pair.right) {
        return rows::row_fits(n, stride, width, pair.before);
    }
    false
}

// What is done to a column on the way forward.
trait PairStep {
    ghost column: { ℕ → ℕ → ℕ → ℕ → (ℕ → ℤ) → ℕ → ℤ };

    fn lift(area: &mut [i32], p: Pair)
        requires { column_in (length area.old) p.high p.low p.right p.before }
        ensures { at area.new ≡ column p.high p.low p.right p.before (at area.old) };
}

struct Lift;

impl PairStep for Lift {
    ghost column = { lifted_at };

    fn lift(area: &mut [i32], p: Pair) {
        place::lift_at(area, p);
    }
}

// The high number takes the place of the other too.
struct LiftAndCopy;

impl PairStep for LiftAndCopy {
    ghost column = { copied_at };

    fn lift(area: &mut [i32], p: Pair) {
        let d = place::lift_at(area, p);
        area[p.before] = d;
    }
}

fn lift_rows<S: PairStep>(
    area: &mut [i32],
    stride: usize,
    width: usize,
    pair: Pair,
) -> Result<(), Refusal>
    ensures value { answer result ≡ pick (pair_fits (length area.old) stride width pair.high pair.low pair.right pair.before) 0 5 }
    ensures area_after { at area.new ≡ pick (pair_fits (length area.old) stride width pair.high pair.low pair.right pair.before)
        (each_column S.column stride width pair.high pair.low pair.right pair.before (at area.old)) (at area.old) }
{
    if !pair_fits(area.len(), stride, width, pair) {
        return Err(Refusal::AreaShort);
    }
    let high = pair.high * stride;
    let low = pair.low * stride;
    let right = pair.right * stride;
    let before = pair.before * stride;
    for i in 0..width {
        S::lift(
            area,
            Pair {
                high: high + i,
                low: low + i,
                right: right + i,
                before: before + i,
            },
        );
    }
    Ok(())
}

pub fn lift_pair(area: &mut [i32], stride: usize, width: usize, pair: Pair) -> Result<(), Refusal>
    ensures value { answer result ≡ pick (pair_fits (length area.old) stride width pair.high pair.low pair.right pair.before) 0 5 }
    ensures area_after { at area.new ≡ pick (pair_fits (length area.old) stride width pair.high pair.low pair.right pair.before)
        (pair_lifted stride width pair.high pair.low pair.right pair.before (at area.old)) (at area.old) }
{
    lift_rows::<Lift>(area, stride, width, pair)
}

// The same, and row `high` takes the place of row `before`.
pub fn lift_and_copy(
    area: &mut [i32],
    stride: usize,
    width: usize,
    pair: Pair,
) -> Result<(), Refusal>
    ensures value { answer result ≡ pick (pair_fits (length area.old) stride width pair.high pair.low pair.right pair.before) 0 5 }
    ensures area_after { at area.new ≡ pick (pair_fits (length area.old) stride width pair.high pair.low pair.right pair.before)
        (pair_copied stride width pair.high pair.low pair.right pair.before (at area.old)) (at area.old) }
{
    lift_rows::<LiftAndCopy>(area, stride, width, pair)
}

// The way back: row `low` without its update by rows `high` and `right`, and then row `high` without its prediction by rows `before` and `low`. No map where
// a number made does not lie from `least` to `most`; the rows are made then too.
pub fn unlift_pair(
    area: &mut [i32],
    stride: usize,
    width: usize,
    pair: Pair,
    least: i32,
    most: i32,
) -> Result<(), Refusal>
    ensures value { answer result ≡ pick (pair_fits (length area.old) stride width pair.high pair.low pair.right pair.before)
        (pick (pair_within least most stride width pair.high pair.low (at area.new)) 0 14) 5 }
    ensures area_after { at area.new ≡ pick (pair_fits (length area.old) stride width pair.high pair.low pair.right pair.before)
        (pair_unlifted stride width pair.high pair.low pair.right pair.before (at area.old)) (at area.old) }
{
    if !pair_fits(area.len(), stride, width, pair) {
        return Err(Refusal::AreaShort);
    }
    let high = pair.high * stride;
    let low = pair.low * stride;
    let right = pair.right * stride;
    let before = pair.before * stride;
    let mut ok = true;
    for i in 0..width {
        let column = Pair {
            high: high + i,
            low: low + i,
            right: right + i,
            before: before + i,
        };
        ok = ok & place::unlift_at(area, column, least, most);
    }
    if ok { Ok(()) } else { Err(Refusal::NoMap) }
}
