// From place to place: the row that is wanted from a place on, and the place after a row. Each function is a definition of `reader_steps`. The module is
// private: only this crate, which meets what is required, can call it.
ghost use Rattle.std.specs.Prelude.{◌≡◌, ◌+◌, ◌<◌, ◌≤◌, ◌^◌};
ghost use Rattle.wavelet.specs.Levels.{side_at};
ghost use Rattle.wavelet.specs.Shape.{columns, rows};
ghost use Rattle.reader_steps.specs.Sets.{waiting};
ghost use Rattle.reader_steps.specs.Places.{band_at, next_up, begins, past, beyond, enter};
ghost use Rattle.reader_order.specs.Inside.{IsAt, Is};

use reader_steps::places::{Sides, Spot};
use reader_steps::{places, sets};
use wavelet::shape::Shape;
use wavelet::sizes;

// The columns and the rows that level k + 1 splits.
fn sides_at(s: Shape, k: usize) -> Sides
    ensures { IsAt s k result }
{
    let x = s.x as usize;
    let y = s.y as usize;
    Sides {
        x: sizes::start_at(k, x),
        width: sizes::size_at(k, x, s.width),
        y: sizes::start_at(k, y),
        height: sizes::size_at(k, y, s.height),
    }
}

// The first band from code b on that set n of level k + 1, of the sides v, asks for; 4 where there is none.
fn band_at(s: Shape, k: usize, v: Sides, n: usize, b: usize) -> usize
    requires { IsAt s k v × (k < s.levels) }
    ensures { result ≡ band_at (columns s) (rows s) s.levels k n b }
{
    sets::next_band(k + 1 == s.levels, v.x, v.width, v.y, v.height, n, b)
}

// The number of level k that waits while set n of level k + 1, of the sides v, is collected.
fn waits(s: Shape, k: usize, v: Sides, n: usize) -> usize
    requires { IsAt s k v }
    ensures { result ≡ waiting s.filter (rows s) k n }
{
    let r = sets::first_row(s.filter as usize, v.y, v.height, n);
    if k == 0 {
        return r;
    }
    r + sizes::start_at(k - 1, s.y as usize) % 2
}

// The row that is wanted from a place on: of its own set, or of the next finer one that waits and asks for one. Level 0: none, a height row can be drawn.
pub fn next_up(s: Shape, q: Spot) -> Spot
    requires { q.level ≤ s.levels }
    ensures { Is (next_up s.filter (columns s) (rows s) s.levels q.level q.set q.band) result }
{
    let mut n = q.set;
    let mut b = q.band;
    for k in (0..q.level).rev() {
        let v = sides_at(s, k);
        let c = band_at(s, k, v, n, b);
        if c < 4 {
            return Spot {
                level: k + 1,
                set: n,
                band: c,
            };
        }
        n = waits(s, k, v, n);
        b = 1;
    }
    Spot {
        level: 0,
        set: 0,
        band: 4,
    }
}

// Where height row d begins.
pub fn begin_row(s: Shape, d: usize) -> Spot
    ensures { Is (enter s.filter (columns s) (rows s) s.levels d) result × (result.level ≤ s.levels) }
{
    let v = Sides {
        x: s.x as usize,
        width: s.width,
        y: s.y as usize,
        height: s.height,
    };
    places::descend_from(s.filter as usize, s.levels, 0, v, d, d)
}

// Where set n of level k + 1 begins.
fn begin_set(s: Shape, k: usize, n: usize) -> Spot
    requires { k < s.levels }
    ensures { Is (begins s.filter (columns s) (rows s) s.levels (k + 1) n) result × (result.level ≤ s.levels) }
{
    let low = sizes::start_at(k, s.y as usize) % 2;
    if n < low {
        return Spot {
            level: k + 1,
            set: n,
            band: 1,
        };
    }
    places::descend_from(
        s.filter as usize,
        s.levels,
        k + 1,
        sides_at(s, k + 1),
        n,
        n - low,
    )
}

// Past set n of level k + 1, of the sides v: to the next finer level, if a row is made that waits, else to where the next set begins.
fn past_set(s: Shape, k: usize, v: Sides, n: usize) -> Spot
    requires { IsAt s k v × (k < s.levels) × (n ≤ 2 ^ 32) }
    ensures { Is (past s.filter (columns s) (rows s) s.levels k n) result × (result.level ≤ s.levels) }
{
    if !sets::is_making(s.filter as usize, v.y, v.height, n) {
        return begin_set(s, k, n + 1);
    }
    Spot {
        level: k,
        set: waits(s, k, v, n),
        band: 1,
    }
}

// The place after the row with band code c of set n of level k + 1.
pub fn after(s: Shape, k: usize, n: usize, c: usize) -> Spot
    requires { (k < s.levels) × (n ≤ 2 ^ 32) × (c < 4) }
    ensures { Is (beyond s.filter (columns s) (rows s) s.levels k n c) result × (result.level ≤ s.levels) }
{
    let v = sides_at(s, k);
    if band_at(s, k, v, n, c + 1) < 4 {
        return Spot {
            level: k + 1,
            set: n,
            band: c + 1,
        };
    }
    past_set(s, k, v, n)
}
