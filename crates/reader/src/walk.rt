// The walk over the levels of a map, by its filter's number, that starts at (x, y), of `width` × `height`, while row `drawn` is waited for: the stretch and the
// set of each level, the row wanted, the sets worked out on the way. A level is found once a call and handed on. The module is private: only this crate, which
// meets what is required, can call it.
ghost use Rattle.std.specs.Prelude.{◌≡◌, true, false, ◌+◌, ◌-◌, ◌*◌, ◌<◌, ◌≤◌, ◌^◌, length, leb};
ghost use Rattle.numbers.specs.Signal.{at, pick};
ghost use Rattle.lifting.specs.Grid.{side, count};
ghost use Rattle.wavelet.specs.Bands.{across, down};
ghost use Rattle.wavelet.specs.Limits.{max_levels};
ghost use Rattle.lifting.specs.Line.{lo};
ghost use Rattle.wavelet.specs.Order.{first_set};
ghost use Rattle.wavelet.specs.Levels.{next, side_at};
ghost use Rattle.filters.specs.Filters.{filter_of};
ghost use Rattle.filters.specs.Figures.{store_by, streamable};
ghost use Rattle.synthesis.specs.Back.{row_place_of, workable_of};
ghost use Rattle.level.specs.Tried.{failed, outcome};
ghost use Rattle.level.specs.Stretch.{row_of_set, half_place};
ghost use Rattle.level.specs.Rebuilding.{Kept};
ghost use Rattle.reader_steps.specs.Asked.{named};
ghost use Rattle.reader.specs.Admission.{work_by, Admits};
ghost use Rattle.reader.specs.Store.{fed_at, worked_at, zeroed};
ghost use Rattle.reader_steps.specs.Sets.{waiting};
ghost use Rattle.reader_steps.specs.Places.{spot, band_at, next_up, descend};
ghost use Rattle.reader.specs.Machine.{settled};
ghost use Rattle.reader.specs.Inside.{Small, IsLevel, IsAt, Is, IsNext};

use areas::copies;
use reader_steps::places::{Sides, Spot};
use reader_steps::{places, sets};
use synthesis::back;
use wavelet::sizes;

// A level: where its stretch begins, the columns and rows that it splits, the set that it is at, and the last that the row waited for needs.
#[derive(Clone, Copy)]
pub struct Level {
    pub start: usize,
    pub x: usize,
    pub width: usize,
    pub y: usize,
    pub height: usize,
    pub set: usize,
    pub last: usize,
}

// The row wanted: its place, and its level if it has one.
#[derive(Clone, Copy)]
pub struct Next {
    pub spot: Spot,
    pub at: Level,
}

// Level k + 1, at the last set that row `drawn` needs. The coordinates where its columns and rows begin and end are halved from level to level, the columns
// of the levels before it are added up, and the row that the set of each level takes is found.
pub fn level_at(
    filter: usize,
    x: usize,
    width: usize,
    y: usize,
    height: usize,
    drawn: usize,
    k: usize,
) -> Level
    requires { Small (side x width) (side y height) drawn × (k ≤ max_levels) }
    ensures { IsAt filter (side x width) (side y height) drawn k result }
{
    let mut columns = 0;
    let mut left = x;
    let mut right = x + width;
    let mut top = y;
    let mut bottom = y + height;
    let mut row = drawn;
    for _i in 0..k {
        let n = sets::set_of(filter, top, bottom - top, row);
        row = sets::row_below(top, n);
        columns += right - left;
        left = sizes::next_start(left);
        right = sizes::next_start(right);
        top = sizes::next_start(top);
        bottom = sizes::next_start(bottom);
    }
    let h = bottom - top;
    let n = sets::set_of(filter, top, h, row);
    let rows = filters::rows_kept(filter);
    Level {
        start: rows * columns,
        x: left,
        width: right - left,
        y: top,
        height: h,
        set: n,
        last: n,
    }
}

// The same level at another set.
pub fn at_set(l: Level, n: usize) -> Level
    ensures { (result.start ≡ l.start) × (result.x ≡ l.x) × (result.width ≡ l.width) × (result.y ≡ l.y) × (result.height ≡ l.height) × (result.set ≡ n) ×
        (result.last ≡ l.last) }
{
    Level { set: n, ..l }
}

// Level k, at the set that waits while l, level k + 1, is at its own.
pub fn finer(
    filter: usize,
    x: usize,
    width: usize,
    y: usize,
    height: usize,
    drawn: usize,
    k: usize,
    l: Level,
) -> Level
    requires { Small (side x width) (side y height) drawn × IsLevel filter (side x width) (side y height) drawn k l × (0 < k) × (k ≤ max_levels) }
    ensures { IsLevel filter (side x width) (side y height) drawn (k - 1) result × (result.set ≡ waiting filter (side y height) k l.set) }
{
    let m = level_at(filter, x, width, y, height, drawn, k - 1);
    at_set(m, sets::first_row(filter, l.y, l.height, l.set) + m.y % 2)
}

// The code of the first band from `band` on that the set of l, level k + 1, asks for; 4 where there is none.
pub fn band_at(
    filter: usize,
    x: usize,
    width: usize,
    y: usize,
    height: usize,
    levels: usize,
    drawn: usize,
    k: usize,
    l: Level,
    band: usize,
) -> usize
    requires { Small (side x width) (side y height) drawn × IsLevel filter (side x width) (side y height) drawn k l × (k ≤ max_levels) }
    ensures { result ≡ band_at (side x width) (side y height) levels k l.set band }
{
    sets::next_band(k + 1 == levels, l.x, l.width, l.y, l.height, l.set, band)
}

// No row wanted.
pub fn no_row() -> Next
    ensures { (result.spot.level ≡ 0) × (result.spot.set ≡ 0) × (result.spot.band ≡ 4) }
{
    Next {
        spot: Spot {
            level: 0,
            set: 0,
            band: 4,
        },
        at: Level {
            start: 0,
            x: 0,
            width: 0,
            y: 0,
            height: 0,
            set: 0,
            last: 0,
        },
    }
}

// The row wanted: of the set of l, this level, or of the next finer one that waits and asks for one.
pub fn next_up(
    filter: usize,
    x: usize,
    width: usize,
    y: usize,
    height: usize,
    levels: usize,
    drawn: usize,
    level: usize,
    l: Level,
    band: usize,
) -> Next
    requires { Small (side x width) (side y height) drawn × (0 < level) × (level ≤ max_levels) ×
        IsLevel filter (side x width) (side y height) drawn (level - 1) l }
    ensures { IsNext filter (side x width) (side y height) drawn (next_up filter (side x width) (side y height) levels level l.set band) result }
{
    let mut m = l;
    let mut b = band;
    for k in (0..level).rev() {
        let c = band_at(filter, x, width, y, height, levels, drawn, k, m, b);
        if c < 4 {
            return Next {
                spot: Spot {
                    level: k + 1,
                    set: m.set,
                    band: c,
                },
                at: m,
            };
        }
        b = 1;
        if 0 < k {
            m = finer(filter, x, width, y, height, drawn, k, m);
        }
    }
    no_row()
}

// Where the half row of a band of set n begins, in its level's stretch.
pub fn half_place(filter: usize, x: usize, w: usize, n: usize, band: usize) -> usize
    requires { (band < 4) × (w ≤ 2 ^ 16) × (n ≤ 2 ^ 32) }
    ensures { result ≡ row_place_of filter w (row_of_set (down (named band)) n) + half_place (across (named band)) (side x w) }
{
    let a = back::row_place(filter, w, 2 * n + band / 2);
    if band % 2 == 0 {
        a
    } else {
        a + sizes::low_count(x, w)
    }
}

// A band row put into the half row where it belongs, in the stretch of l, level k + 1.
// Stays: as `run_steps::put_row`, for speed.
pub fn put_row(
    filter: usize,
    x: usize,
    width: usize,
    y: usize,
    height: usize,
    drawn: usize,
    store: &mut [i32],
    k: usize,
    l: Level,
    band: usize,
    run: &[i32],
)
    requires { Small (side x width) (side y height) drawn × (k < max_levels) × IsLevel filter (side x width) (side y height) drawn k l × (band < 4) ×
        (store_by filter (side x width) (k + 1) ≤ length store.old) × (length run.now ≡ count (across (named band)) (side_at k (side x width))) }
    ensures { at store.new ≡
        fed_at filter (side x width) (side y height) k l.set band (at run.now) (at store.old) }
{
    let a = l.start + half_place(filter, l.x, l.width, l.set, band);
    let e = a + run.len();
    let _ = copies::copy(run, &mut store[a..e]);
}

// A set worked out in its level's stretch by the admission: strictly, or with each value limited. Whether it went on.
fn work_by(
    stretch: &mut [i32],
    admission: usize,
    filter: usize,
    last: bool,
    k: usize,
    w: usize,
    h: usize,
    x: usize,
    y: usize,
    n: usize,
) -> bool
    requires { 0 < admission → (filter ≡ 0) × (x ≡ 0) × (y ≡ 0) }
    ensures stretch_after { outcome result (at stretch.new) ≡
        pick (workable_of filter last k (side x w) (side y h) n (length stretch.old))
        (work_by admission filter last k (side x w) (side y h) n (at stretch.old)) failed }
    ensures kept { Kept ((filter_of filter).rows * w) (at stretch.old) (at stretch.new) }
{
    if admission != 0 {
        return back::work_tolerant(stretch, last, k, w, h, n).is_ok();
    }
    back::work_set(stretch, filter, last, k, w, h, x, y, n).is_ok()
}

// The set of l, level k + 1, worked out in the level's own stretch, if the level has it. Its rows are low-low values of level `base` + k of the map that the
// reader stops in.
pub fn work_at(
    admission: usize,
    filter: usize,
    base: usize,
    x: usize,
    width: usize,
    y: usize,
    height: usize,
    levels: usize,
    drawn: usize,
    store: &mut [i32],
    k: usize,
    l: Level,
) -> bool
    requires { Small (side x width) (side y height) drawn × (base + levels ≤ (filter_of filter).levels) × (k < levels) ×
        IsLevel filter (side x width) (side y height) drawn k l ×
        (store_by filter (side x width) levels ≤ length store.old) × Admits admission filter base (side x width) (side y height) }
    ensures store_after { outcome result (at store.new) ≡
        worked_at admission filter base (side x width) (side y height) levels k l.set (at store.old) }
    ensures kept { Kept (store_by filter (side x width) levels) (at store.old) (at store.new) }
{
    let level = base + k;
    if !sets::is_there(l.width, l.y, l.height, l.set) {
        return true;
    }
    let a = l.start;
    work_by(
        &mut store[a..],
        admission,
        filter,
        k + 1 == levels,
        level,
        l.width,
        l.height,
        l.x,
        l.y,
        l.set,
    )
}

// The sets of the levels from `from`, at the set of l, down to above `to`, the coarsest first.
pub fn work_due(
    admission: usize,
    filter: usize,
    base: usize,
    x: usize,
    width: usize,
    y: usize,
    height: usize,
    levels: usize,
    drawn: usize,
    store: &mut [i32],
    from: usize,
    l: Level,
    to: usize,
) -> bool
    requires { Small (side x width) (side y height) drawn × (base + levels ≤ (filter_of filter).levels) × (from ≤ levels) ×
        (0 < from → IsLevel filter (side x width) (side y height) drawn (from - 1) l) ×
        (store_by filter (side x width) levels ≤ length store.old) × Admits admission filter base (side x width) (side y height) }
    ensures store_after { outcome result (at store.new) ≡
        settled admission filter base (side x width) (side y height) levels to from l.set (at store.old) }
    ensures kept { Kept (store_by filter (side x width) levels) (at store.old) (at store.new) }
{
    let mut m = l;
    for k in (to..from).rev() {
        if !work_at(
            admission, filter, base, x, width, y, height, levels, drawn, store, k, m,
        ) {
            return false;
        }
        if 0 < k {
            m = finer(filter, x, width, y, height, drawn, k, m);
        }
    }
    true
}

// Where set n of l, level `level`, begins.
pub fn begin(filter: usize, levels: usize, level: usize, l: Level, n: usize) -> Spot
    ensures { Is (pick (leb (first_set (side l.y l.height) lo) n)
        (descend filter (levels - level) level (next (side l.x l.width)) (next (side l.y l.height)) n (n - first_set (side l.y l.height) lo))
        (spot level n 1)) result }
{
    if n < l.y % 2 {
        return Spot {
            level,
            set: n,
            band: 1,
        };
    }
    let v = Sides {
        x: sizes::next_start(l.x),
        width: sizes::low_count(l.x, l.width),
        y: sizes::next_start(l.y),
        height: sizes::low_count(l.y, l.height),
    };
    places::descend_from(filter, levels, level, v, n, n - l.y % 2)
}

// The needed part of a line store zeroed, where a reader ends: its own, and the `spare` numbers of the levels that it leaves out. It takes numbers, not the
// reader, which would be laid into memory in every call for it.
pub fn zero(filter: usize, x: usize, width: usize, levels: usize, spare: usize, store: &mut [i32])
    requires { (streamable filter (side x width) levels ≡ true) × (spare + store_by filter (side x width) levels ≤ length store.old) }
    ensures { at store.new ≡ zeroed (spare + store_by filter (side x width) levels) (at store.old) }
{
    let n = spare + filters::store_length(filter, width, x, levels);
    let _ = copies::clear(store, n);
}
