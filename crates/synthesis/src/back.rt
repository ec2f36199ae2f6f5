// A level on the way back: where a row of it stands in the level's stretch of the line store, and a set worked out there. Every call is total.
ghost use Rattle.std.specs.Prelude.{◌≡◌, ◌+◌, ◌*◌, ◌≤◌, leb, ltb, eqb, length};
ghost use Rattle.numbers.specs.Signal.{at, pick, both};
ghost use Rattle.lifting.specs.Grid.{side};
ghost use Rattle.refusal.specs.Numbers.{answer};
ghost use Rattle.wavelet.specs.Order.{last_set};
ghost use Rattle.level.specs.Tried.{failed, outcome};
ghost use Rattle.level.specs.Rebuilding.{widest, tallest, work_answer, Kept};
ghost use Rattle.filters.specs.Filters.{filter_of};
ghost use Rattle.level.specs.Rebuilding.{work_length_by};
ghost use Rattle.synthesis.specs.Back.{back_of, row_place_of, workable_of, work_left_of};
ghost use Rattle.synthesis.specs.Tolerant.{tolerant_back};

use crate::{rows, tolerant, work};
use areas::copies;
use level::bounds as limits;
use refusal::Refusal;
use wavelet::sizes;

// Where the row at r of a level of w columns begins; 0 where w is too large. The row lies within those kept. Set n has the rows at 2n and 2n + 1, row r of rows
// that start at s is at s % 2 + r.
pub fn row_place(filter: usize, w: usize, r: usize) -> usize
    ensures place { result ≡ pick (leb w widest) (row_place_of filter w r) 0 }
    ensures room { result + w ≤ (filter_of filter).rows * w }
{
    if limits::WIDEST < w {
        return 0;
    }
    rows::row_place(filter, w, r)
}

// How many numbers a set is worked out in.
fn work_length(filter: usize, last: bool, w: usize, x: usize) -> usize
    requires { w ≤ widest }
    ensures { result ≡ work_length_by (filter_of filter).rows last (side x w) }
{
    let rows = filters::rows_kept(filter);
    if last {
        return rows * w;
    }
    rows * w + rows * sizes::low_count(x, w)
}

// Whether h rows that start at y, so few that no place overflows, have a set n.
fn has_set(h: usize, y: usize, n: usize) -> bool
    requires { h ≤ tallest }
    ensures { result ≡ both (ltb 0 h) (leb n (last_set (side y h))) }
{
    0 < h && n <= (y % 2 + (h - 1)) / 2
}

// Whether set n can be worked out in `length` numbers.
fn can_work(
    filter: usize,
    last: bool,
    k: usize,
    w: usize,
    h: usize,
    x: usize,
    y: usize,
    n: usize,
    length: usize,
) -> bool
    ensures { result ≡ workable_of filter last k (side x w) (side y h) n length }
{
    if filters::most_levels(filter) < k {
        return false;
    }
    if limits::WIDEST < w {
        return false;
    }
    if limits::TALLEST < h {
        return false;
    }
    if !has_set(h, y, n) {
        return false;
    }
    work_length(filter, last, w, x) <= length
}

// Set n of a level that splits w columns from x on and h rows from y on worked out in its stretch; `last` says that it is level L. Its rows are low-low values
// of level k (k = 0: heights). NoMap, and zeros in the level's own numbers, where one of those that it makes does not fit or a number that is halved is odd.
// AreaShort, and nothing changed, where the set can not be worked out there.
pub fn work_set(
    stretch: &mut [i32],
    filter: usize,
    last: bool,
    k: usize,
    w: usize,
    h: usize,
    x: usize,
    y: usize,
    n: usize,
) -> Result<(), Refusal>
    ensures answer { answer result ≡
        work_answer (workable_of filter last k (side x w) (side y h) n (length stretch.old))
        ((back_of filter).work last k (side x w) (side y h) n (at stretch.old)) }
    ensures memory { outcome (eqb (answer result) 0) (at stretch.new) ≡
        pick (workable_of filter last k (side x w) (side y h) n (length stretch.old))
        ((back_of filter).work last k (side x w) (side y h) n (at stretch.old)) failed }
    ensures kept { Kept ((filter_of filter).rows * w) (at stretch.old) (at stretch.new) }
    ensures left { at stretch.new ≡
        work_left_of filter (side x w) (workable_of filter last k (side x w) (side y h) n (length stretch.old))
        ((back_of filter).work last k (side x w) (side y h) n (at stretch.old)) (at stretch.old) }
{
    if !can_work(filter, last, k, w, h, x, y, n, stretch.len()) {
        return Err(Refusal::AreaShort);
    }
    if work::work_set(stretch, filter, last, k, w, h, x, y, n) {
        return Ok(());
    }
    let _ = copies::clear(stretch, filters::rows_kept(filter) * w);
    Err(Refusal::NoMap)
}

// The same of a tolerant reader: the 5/3, from the origin, each row limited to its level's range as it is made. It never gives NoMap.
pub fn work_tolerant(
    stretch: &mut [i32],
    last: bool,
    k: usize,
    w: usize,
    h: usize,
    n: usize,
) -> Result<(), Refusal>
    ensures answer { answer result ≡
        work_answer (workable_of 0 last k (side 0 w) (side 0 h) n (length stretch.old))
        (tolerant_back.work last k (side 0 w) (side 0 h) n (at stretch.old)) }
    ensures memory { outcome (eqb (answer result) 0) (at stretch.new) ≡
        pick (workable_of 0 last k (side 0 w) (side 0 h) n (length stretch.old))
        (tolerant_back.work last k (side 0 w) (side 0 h) n (at stretch.old)) failed }
    ensures kept { Kept ((filter_of 0).rows * w) (at stretch.old) (at stretch.new) }
    ensures left { at stretch.new ≡
        work_left_of 0 (side 0 w) (workable_of 0 last k (side 0 w) (side 0 h) n (length stretch.old))
        (tolerant_back.work last k (side 0 w) (side 0 h) n (at stretch.old)) (at stretch.old) }
{
    if !can_work(0, last, k, w, h, 0, 0, n, stretch.len()) {
        return Err(Refusal::AreaShort);
    }
    if tolerant::work_set(stretch, last, k, w, h, n) {
        return Ok(());
    }
    let _ = copies::clear(stretch, filters::rows_kept(0) * w);
    Err(Refusal::NoMap)
}
