// The steps of a feed and of a draw that a run takes: the reader's own level is kept from one to the next. A compiler puts a step into the one call that has
// it, so some of `walk` and `steps` stand here once more. The module is private, as theirs are.
ghost use Rattle.std.specs.Prelude.{◌≡◌, true, false, ◌+◌, ◌-◌, ◌<◌, ◌≤◌, length};
ghost use Rattle.numbers.specs.Signal.{at};
ghost use Rattle.lifting.specs.Grid.{side, count};
ghost use Rattle.lifting.specs.Halves.{fronted};
ghost use Rattle.wavelet.specs.Bands.{across};
ghost use Rattle.wavelet.specs.Limits.{max_levels};
ghost use Rattle.wavelet.specs.Levels.{side_at};
ghost use Rattle.areas.specs.Areas.{heights_at};
ghost use Rattle.filters.specs.Figures.{store_by};
ghost use Rattle.level.specs.Tried.{outcome};
ghost use Rattle.level.specs.Rebuilding.{Kept};
ghost use Rattle.reader_steps.specs.Asked.{named};
ghost use Rattle.reader_steps.specs.Places.{spot, past, spot_fed, enter};
ghost use Rattle.reader.specs.Store.{fed_at, zeroed};
ghost use Rattle.reader.specs.State.{columns, rows, needs, next, next_length, settles, feeds, ended_reader};
ghost use Rattle.reader.specs.Calls.{height_row};
ghost use Rattle.reader.specs.Inside.{Counts, Small, Is, IsLevel, Due, Completing};
ghost use Rattle.reader.specs.RunSteps.{reader_at, Own, place_fits, IsPlace, FedTo, DrawnTo};

use crate::walk::{Level, Next};
use crate::{Reader, limited, steps, walk};
use areas::copies;
use reader_steps::places::{Sides, Spot};
use reader_steps::{places, sets};
use synthesis::back;

// What calls change of a reader, and the level that it collects if there is one.
// Stays: the fields are a reader's, as they are there.
#[derive(Clone, Copy)]
pub struct Place {
    pub drawn: usize,
    pub level: usize,
    pub back: usize,
    pub band: usize,
    pub ended: bool,
    pub at: Level,
}

// The reader at a place.
pub fn reader_at(s: Reader, p: Place) -> Reader
    ensures { result ≡ reader_at s p }
{
    Reader {
        drawn: p.drawn,
        level: p.level,
        back: p.back,
        band: p.band,
        ended: p.ended,
        ..s
    }
}

// Where a reader is, with a level.
pub fn place_at(s: Reader, l: Level) -> Place
    ensures { (reader_at s result ≡ s) × (result.at ≡ l) }
{
    Place {
        drawn: s.drawn,
        level: s.level,
        back: s.back,
        band: s.band,
        ended: s.ended,
        at: l,
    }
}

// With its own level.
pub fn place_now(s: Reader) -> Place
    requires { 0 < s.level → Counts s }
    ensures { (reader_at s result ≡ s) × Own s result.at }
{
    if s.level == 0 {
        let none = walk::no_row();
        return place_at(s, none.at);
    }
    place_at(s, steps::own_level(s))
}

// Whether what calls change of a reader is in its range. Places that nobody reached may leave it.
pub fn place_fits(s: Reader) -> bool
    ensures { result ≡ place_fits s }
{
    if s.height < s.drawn {
        return false;
    }
    if s.levels < s.level {
        return false;
    }
    if 4 < s.band {
        return false;
    }
    s.back <= 2 * filters::look_ahead(s.filter) - 1
}

// A place with its level at hand, m.
fn kept(m: Level, drawn: usize, p: Spot) -> Place
    ensures { (result.drawn ≡ drawn) × (result.level ≡ p.level) × (result.back ≡ m.last - p.set) × (result.band ≡ p.band) × (result.ended ≡ false) ×
        (result.at.start ≡ m.start) × (result.at.x ≡ m.x) × (result.at.width ≡ m.width) × (result.at.y ≡ m.y) × (result.at.height ≡ m.height) ×
        (result.at.set ≡ m.last - result.back) × (result.at.last ≡ m.last) }
{
    let b = sets::less(m.last, p.set);
    Place {
        drawn,
        level: p.level,
        back: b,
        band: p.band,
        ended: false,
        at: walk::at_set(m, sets::less(m.last, b)),
    }
}

// A place whose level is to be found.
fn placed(
    filter: usize,
    x: usize,
    width: usize,
    y: usize,
    height: usize,
    drawn: usize,
    p: Spot,
) -> Place
    requires { Small (side x width) (side y height) drawn × (p.level ≤ max_levels) }
    ensures { IsPlace filter (side x width) (side y height) drawn (spot p.level p.set p.band) result }
{
    if p.level == 0 {
        let none = walk::no_row();
        let l = none.at;
        return Place {
            drawn,
            level: 0,
            back: sets::less(drawn, p.set),
            band: p.band,
            ended: false,
            at: l,
        };
    }
    let m = walk::level_at(filter, x, width, y, height, drawn, p.level - 1);
    kept(m, drawn, p)
}

// The row wanted, l being the reader's own level; level 0: there is none.
pub fn next_from(s: Reader, l: Level) -> Next
    requires { Counts s × Own s l }
    ensures { Due s result }
{
    if s.level == 0 {
        return walk::no_row();
    }
    let c = steps::own_band(s, l);
    if c < 4 {
        return Next {
            spot: Spot {
                level: s.level,
                set: l.set,
                band: c,
            },
            at: l,
        };
    }
    walk::next_up(
        s.filter, s.x, s.width, s.y, s.height, s.levels, s.drawn, s.level, l, s.band,
    )
}

// A band row put into the half row where it belongs, in the stretch of l, level k + 1.
// Stays: with `put_row`, `spot_past` and `next_from` shared by both, #[inline(always)] or not, a reader costs 16 % and a run 24 % more instructions at
// 17 columns (289.21 to 335.30 and 138.87 to 172.47 a height).
fn put_row(
    filter: usize,
    x: usize,
    width: usize,
    y: usize,
    height: usize,
    drawn: usize,
    store: &mut [i32],
    k: usize,
    l: Level,
    band: usize,
    run: &[i32],
)
    requires { Small (side x width) (side y height) drawn × (k < max_levels) × IsLevel filter (side x width) (side y height) drawn k l × (band < 4) ×
        (store_by filter (side x width) (k + 1) ≤ length store.old) × (length run.now ≡ count (across (named band)) (side_at k (side x width))) }
    ensures { at store.new ≡
        fed_at filter (side x width) (side y height) k l.set band (at run.now) (at store.old) }
{
    let a = l.start + walk::half_place(filter, l.x, l.width, l.set, band);
    let e = a + run.len();
    let _ = copies::copy(run, &mut store[a..e]);
}

// Where the reader goes on after the set of n is worked out: to the next finer level, if a row is made that waits, else to the next set.
// Stays: as `put_row`, for speed.
fn spot_past(s: Reader, n: Next) -> Spot
    requires { Counts s × Due s n × (0 < n.spot.level) }
    ensures { Is (past s.filter (columns s) (rows s) s.levels (n.spot.level - 1) n.spot.set) result }
{
    let k = n.spot.level - 1;
    if !sets::is_making(s.filter, n.at.y, n.at.height, n.at.set) {
        return walk::begin(s.filter, s.levels, n.spot.level, n.at, n.at.set + 1);
    }
    let r = sets::first_row(s.filter, n.at.y, n.at.height, n.at.set);
    if k == 0 {
        return Spot {
            level: 0,
            set: r,
            band: 1,
        };
    }
    let m = walk::finer(s.filter, s.x, s.width, s.y, s.height, s.drawn, k, n.at);
    Spot {
        level: k,
        set: m.set,
        band: 1,
    }
}

// The sets that wait, down to the level of the row wanted, worked out; most often none does.
fn work_due(s: Reader, l: Level, store: &mut [i32], to: usize) -> bool
    requires { Counts s × Own s l × (to ≡ (next s).level) × (store_by s.filter (columns s) s.levels ≤ length store.old) }
    ensures store_after { outcome result (at store.new) ≡ settles s (at store.old) }
    ensures kept { Kept (store_by s.filter (columns s) s.levels) (at store.old) (at store.new) }
{
    if s.level <= to {
        return true;
    }
    walk::work_due(
        s.admission,
        s.filter,
        s.stop,
        s.x,
        s.width,
        s.y,
        s.height,
        s.levels,
        s.drawn,
        store,
        s.level,
        l,
        to,
    )
}

// Then the run put where it belongs, and the set worked out if it completes it.
fn feed_row(s: Reader, l: Level, store: &mut [i32], n: Next, complete: bool, run: &[i32]) -> bool
    requires { Counts s × Due s n × (0 < n.spot.level) × Completing s n complete × (store_by s.filter (columns s) s.levels ≤ length store.old) ×
        (length run.now ≡ next_length s) × Own s l }
    ensures store_after { outcome result (at store.new) ≡ feeds s (at run.now) (at store.old) }
    ensures kept { Kept (store_by s.filter (columns s) s.levels) (at store.old) (at store.new) }
{
    if !work_due(s, l, store, n.spot.level) {
        return false;
    }
    let k = n.spot.level - 1;
    put_row(
        s.filter,
        s.x,
        s.width,
        s.y,
        s.height,
        s.drawn,
        store,
        k,
        n.at,
        n.spot.band,
        run,
    );
    if !complete {
        return true;
    }
    walk::work_at(
        s.admission,
        s.filter,
        s.stop,
        s.x,
        s.width,
        s.y,
        s.height,
        s.levels,
        s.drawn,
        store,
        k,
        n.at,
    )
}

// Where the reader is ended by 14: the needed part of the line store is zeroed.
fn ending(s: Reader, l: Level, store: &mut [i32]) -> Place
    requires { Counts s × (needs s ≤ length store.old) × Own s l }
    ensures result_value { (reader_at s result ≡ ended_reader s) × (result.ended ≡ true) × Own (reader_at s result) result.at }
    ensures store_after { at store.new ≡ zeroed (needs s) (at store.old) }
{
    walk::zero(s.filter, s.x, s.width, s.levels, s.spare, store);
    Place {
        drawn: s.drawn,
        level: s.level,
        back: s.back,
        band: s.band,
        ended: true,
        at: l,
    }
}

// Where the reader goes on after the row of n: another band of the set, or past the set.
fn place_past(s: Reader, n: Next, complete: bool) -> Place
    requires { Counts s × Due s n × (0 < n.spot.level) × Completing s n complete }
    ensures { IsPlace s.filter (columns s) (rows s) s.drawn
        (spot_fed s.filter (columns s) (rows s) s.levels (next s).level (next s).set (next s).band) result }
{
    if complete {
        return placed(
            s.filter,
            s.x,
            s.width,
            s.y,
            s.height,
            s.drawn,
            spot_past(s, n),
        );
    }
    kept(
        n.at,
        s.drawn,
        Spot {
            level: n.spot.level,
            set: n.spot.set,
            band: n.spot.band + 1,
        },
    )
}

// The row wanted fed, and where the reader is then. Questions before 14 are asked.
pub fn feed(s: Reader, l: Level, store: &mut [i32], n: Next, run: &[i32]) -> Place
    requires { Counts s × Own s l × Due s n × (0 < n.spot.level) × (store_by s.filter (columns s) s.levels ≤ length store.old) ×
        (needs s ≤ length store.old) × (length run.now ≡ next_length s) }
    ensures { FedTo s (at run.now) (at store.old) (at store.new) result }
{
    let complete = steps::completes(s, n);
    if feed_row(s, l, store, n, complete, run) {
        return place_past(s, n, complete);
    }
    ending(s, l, store)
}

// The height row that stands in the store, drawn, and where the reader is then.
fn hand_out(s: Reader, store: &[i32], out: &mut [u16]) -> Place
    requires { Counts s × (s.drawn < s.height) × (store_by s.filter (columns s) s.levels ≤ length store.now) ×
        (s.width ≤ length out.old) }
    ensures place { IsPlace s.filter (columns s) (rows s) (s.drawn + 1) (enter s.filter (columns s) (rows s) s.levels (s.drawn + 1)) result }
    ensures out_after { heights_at out.new ≡ fronted s.width (height_row s (at store.now)) (heights_at out.old) }
{
    let w = s.width;
    let a = back::row_place(s.filter, w, s.y % 2 + s.drawn);
    let e = a + w;
    limited::draw_row(s.stop, &store[a..e], s.x, out);
    let d = s.drawn + 1;
    let v = Sides {
        x: s.x,
        width: w,
        y: s.y,
        height: s.height,
    };
    let p = places::descend_from(s.filter, s.levels, 0, v, d, d);
    placed(s.filter, s.x, w, s.y, s.height, d, p)
}

// A height row drawn, and where the reader is then. Questions before 14 are asked.
pub fn draw(s: Reader, l: Level, store: &mut [i32], out: &mut [u16]) -> Place
    requires { Counts s × Own s l × (0 ≡ (next s).level) × (s.drawn < s.height) × (store_by s.filter (columns s) s.levels ≤ length store.old) ×
        (needs s ≤ length store.old) × (s.width ≤ length out.old) }
    ensures { DrawnTo s (at store.old) (at store.new) (heights_at out.old) (heights_at out.new) result }
{
    if work_due(s, l, store, 0) {
        return hand_out(s, store, out);
    }
    ending(s, l, store)
}
