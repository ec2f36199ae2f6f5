// The steps of a reader: the row that it wants, a row fed, a height row made ready. Each of a state whose counts are in their ranges. The module is private, as
// `walk` is.
ghost use Rattle.std.specs.Prelude.{◌≡◌, ◌-◌, ◌<◌, ◌≤◌, length};
ghost use Rattle.numbers.specs.Signal.{at};
ghost use Rattle.level.specs.Tried.{outcome};
ghost use Rattle.wavelet.specs.Limits.{max_levels};
ghost use Rattle.filters.specs.Figures.{store_by};
ghost use Rattle.reader_steps.specs.Sets.{needed};
ghost use Rattle.reader_steps.specs.Places.{spot, place_of, past, spot_fed};
ghost use Rattle.reader.specs.State.{columns, rows, next, next_row, next_length, settles, feeds};
ghost use Rattle.reader.specs.Inside.{Counts, Small, Is, Collected, Due, Completing};
ghost use Rattle.level.specs.Rebuilding.{Kept};

use crate::walk::{Level, Next};
use crate::{Reader, walk};
use reader_steps::places::Spot;
use reader_steps::sets;

// The reader's own level, at the set that is collected.
pub fn own_level(s: Reader) -> Level
    requires { Counts s × (0 < s.level) }
    ensures { Collected s result }
{
    let l = walk::level_at(s.filter, s.x, s.width, s.y, s.height, s.drawn, s.level - 1);
    walk::at_set(l, sets::less(l.last, s.back))
}

// The band that is wanted of it, l; 4 where the row wanted is another one, which is rare.
pub fn own_band(s: Reader, l: Level) -> usize
    requires { Counts s × (0 < s.level) × Collected s l }
    ensures { result < 4 → spot s.level l.set result ≡ next s }
{
    walk::band_at(
        s.filter,
        s.x,
        s.width,
        s.y,
        s.height,
        s.levels,
        s.drawn,
        s.level - 1,
        l,
        s.band,
    )
}

// The row wanted; level 0: there is none. The rare walk takes numbers, not the reader, which would be laid into memory in every call for it.
pub fn next_of(s: Reader) -> Next
    requires { Counts s }
    ensures { Due s result }
{
    if s.level == 0 {
        return walk::no_row();
    }
    let l = own_level(s);
    let c = own_band(s, l);
    if c < 4 {
        return Next {
            spot: Spot {
                level: s.level,
                set: l.set,
                band: c,
            },
            at: l,
        };
    }
    walk::next_up(
        s.filter, s.x, s.width, s.y, s.height, s.levels, s.drawn, s.level, l, s.band,
    )
}

// The length of the row wanted, and its number.
pub fn row_length(s: Reader, n: Next) -> usize
    requires { Due s n × (0 < n.spot.level) }
    ensures { result ≡ next_length s }
{
    sets::band_columns(n.at.x, n.at.width, n.spot.band)
}

pub fn row_number(s: Reader, n: Next) -> usize
    requires { Due s n × (0 < n.spot.level) }
    ensures { result ≡ next_row s }
{
    sets::band_row(n.at.y, n.at.height, n.at.set, n.spot.band)
}

// Whether that row completes its set: no band after it is left to feed.
pub fn completes(s: Reader, n: Next) -> bool
    requires { Counts s × Due s n × (0 < n.spot.level) }
    ensures { Completing s n result }
{
    let c = walk::band_at(
        s.filter,
        s.x,
        s.width,
        s.y,
        s.height,
        s.levels,
        s.drawn,
        n.spot.level - 1,
        n.at,
        n.spot.band + 1,
    );
    4 <= c
}

// The sets that wait, down to the level of the row wanted, worked out; most often none does.
pub fn work_due(s: Reader, store: &mut [i32], to: usize) -> bool
    requires { Counts s × (to ≡ (next s).level) × (store_by s.filter (columns s) s.levels ≤ length store.old) }
    ensures store_after { outcome result (at store.new) ≡ settles s (at store.old) }
    ensures kept { Kept (store_by s.filter (columns s) s.levels) (at store.old) (at store.new) }
{
    if s.level <= to {
        return true;
    }
    walk::work_due(
        s.admission,
        s.filter,
        s.stop,
        s.x,
        s.width,
        s.y,
        s.height,
        s.levels,
        s.drawn,
        store,
        s.level,
        own_level(s),
        to,
    )
}

// The same before a draw, where no row is wanted. A function of its own: each call then has its settling inside.
pub fn work_all_due(s: Reader, store: &mut [i32]) -> bool
    requires { Counts s × (0 ≡ (next s).level) × (store_by s.filter (columns s) s.levels ≤ length store.old) }
    ensures store_after { outcome result (at store.new) ≡ settles s (at store.old) }
    ensures kept { Kept (store_by s.filter (columns s) s.levels) (at store.old) (at store.new) }
{
    if s.level == 0 {
        return true;
    }
    walk::work_due(
        s.admission,
        s.filter,
        s.stop,
        s.x,
        s.width,
        s.y,
        s.height,
        s.levels,
        s.drawn,
        store,
        s.level,
        own_level(s),
        0,
    )
}

// Then the run put where it belongs, and the set worked out if it completes it.
pub fn feed_row(s: Reader, store: &mut [i32], n: Next, complete: bool, run: &[i32]) -> bool
    requires { Counts s × Due s n × (0 < n.spot.level) × Completing s n complete × (store_by s.filter (columns s) s.levels ≤ length store.old) ×
        (length run.now ≡ next_length s) }
    ensures store_after { outcome result (at store.new) ≡ feeds s (at run.now) (at store.old) }
    ensures kept { Kept (store_by s.filter (columns s) s.levels) (at store.old) (at store.new) }
{
    if !work_due(s, store, n.spot.level) {
        return false;
    }
    let k = n.spot.level - 1;
    walk::put_row(
        s.filter,
        s.x,
        s.width,
        s.y,
        s.height,
        s.drawn,
        store,
        k,
        n.at,
        n.spot.band,
        run,
    );
    if !complete {
        return true;
    }
    walk::work_at(
        s.admission,
        s.filter,
        s.stop,
        s.x,
        s.width,
        s.y,
        s.height,
        s.levels,
        s.drawn,
        store,
        k,
        n.at,
    )
}

// Where the reader goes on after the set of n is worked out: to the next finer level, if a row is made that waits, else to the next set.
// Stays: as `run_steps::put_row`, for speed.
fn spot_past(s: Reader, n: Next) -> Spot
    requires { Counts s × Due s n × (0 < n.spot.level) }
    ensures { Is (past s.filter (columns s) (rows s) s.levels (n.spot.level - 1) n.spot.set) result }
{
    let k = n.spot.level - 1;
    if !sets::is_making(s.filter, n.at.y, n.at.height, n.at.set) {
        return walk::begin(s.filter, s.levels, n.spot.level, n.at, n.at.set + 1);
    }
    let r = sets::first_row(s.filter, n.at.y, n.at.height, n.at.set);
    if k == 0 {
        return Spot {
            level: 0,
            set: r,
            band: 1,
        };
    }
    let m = walk::finer(s.filter, s.x, s.width, s.y, s.height, s.drawn, k, n.at);
    Spot {
        level: k,
        set: m.set,
        band: 1,
    }
}

// Where the reader goes on after that row: another band of the set, or past the set.
pub fn spot_fed(s: Reader, n: Next, complete: bool) -> Spot
    requires { Counts s × Due s n × (0 < n.spot.level) × Completing s n complete }
    ensures { Is (spot_fed s.filter (columns s) (rows s) s.levels (next s).level (next s).set (next s).band) result }
{
    if !complete {
        return Spot {
            level: n.spot.level,
            set: n.spot.set,
            band: n.spot.band + 1,
        };
    }
    spot_past(s, n)
}

// The last set of a level that row d needs; of level 0 row d.
fn last_of(s: Reader, d: usize, level: usize) -> usize
    requires { Small (columns s) (rows s) d × (level ≤ max_levels) }
    ensures { result ≡ needed s.filter (rows s) 0 d level }
{
    if level == 0 {
        return d;
    }
    walk::level_at(s.filter, s.x, s.width, s.y, s.height, d, level - 1).last
}

// How many sets the set of a place is before the last of its level that row d needs.
pub fn back_of(s: Reader, d: usize, q: Spot) -> usize
    requires { Small (columns s) (rows s) d × (q.level ≤ max_levels) }
    ensures { result ≡ (place_of s.filter (rows s) d (spot q.level q.set q.band)).back }
{
    sets::less(last_of(s, d, q.level), q.set)
}
