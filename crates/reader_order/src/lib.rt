// The order in which a reader wants the band rows of a map: the first row, and the row after a row. Numbers alone, no coefficient. What the places are is
// `reader_steps`'; that they go through the steps of `wavelet` is the theorem here.
#![tactic(auto)]

mod walk;

ghost use Rattle.std.specs.Prelude.{◌≡◌, ◌-◌, ◌≤◌};
ghost use Rattle.reader_steps.specs.Places.{spot};
ghost use Rattle.reader_order.specs.Order.{seek, shape_fits, place_fits, first_place, next_place, row_at};

use reader_steps::places::Spot;
use reader_steps::sets;
use wavelet::shape::Shape;
use wavelet::{limits, sizes};

// A band row in that order: its level, from 1, its set there and its band's code, while height row `drawn` is waited for. Level 0: there is none.
// Stays: the band is a number, since `place_fits` speaks of every one and asks whether it is a band's code.
#[derive(Clone, Copy)]
pub struct Place {
    pub drawn: usize,
    pub level: usize,
    pub set: usize,
    pub band: usize,
}

// No row.
fn nowhere() -> Place
    ensures { (result.drawn ≡ 0) × (result.level ≡ 0) × (result.set ≡ 0) × (result.band ≡ 0) }
{
    Place {
        drawn: 0,
        level: 0,
        set: 0,
        band: 0,
    }
}

// The row that is wanted from a place on, height rows being drawn where they can be, while row d is waited for.
fn seek_row(s: Shape, d: usize, from: Spot) -> Place
    requires { from.level ≤ s.levels }
    ensures { result ≡ seek s (s.height - d) d (spot from.level from.set from.band) }
{
    let mut q = from;
    for drawn in d..s.height {
        let n = walk::next_up(s, q);
        if 0 < n.level {
            return Place {
                drawn,
                level: n.level,
                set: n.set,
                band: n.band,
            };
        }
        q = walk::begin_row(s, drawn + 1);
    }
    nowhere()
}

// Do the sizes pass 2, 3 and 4?
fn shape_fits(s: Shape) -> bool
    ensures { result ≡ shape_fits s }
{
    limits::size_question(s.width, s.height, s.levels).is_ok()
}

// Are a place's numbers in their ranges?
pub fn place_fits(s: Shape, p: Place) -> bool
    ensures { result ≡ place_fits s p }
{
    if !shape_fits(s) {
        return false;
    }
    if !limits::is_within(p.level, s.levels) {
        return false;
    }
    (p.drawn < s.height) & (p.set <= limits::MAX_HEIGHT) & (p.band < 4)
}

// The first row that is wanted.
pub fn first(s: Shape) -> Place
    ensures { result ≡ first_place s }
{
    if !shape_fits(s) {
        return nowhere();
    }
    seek_row(s, 0, walk::begin_row(s, 0))
}

// The row after a row; none where the numbers are not in their ranges.
pub fn next(s: Shape, p: Place) -> Place
    ensures { result ≡ next_place s p }
{
    if !place_fits(s, p) {
        return nowhere();
    }
    seek_row(s, p.drawn, walk::after(s, p.level - 1, p.set, p.band))
}

// The number of a row in its band.
pub fn row_at(s: Shape, p: Place) -> usize
    ensures { result ≡ row_at s p }
{
    if !place_fits(s, p) {
        return 0;
    }
    let k = p.level - 1;
    let y = s.y as usize;
    sets::band_row(
        sizes::start_at(k, y),
        sizes::size_at(k, y, s.height),
        p.set,
        p.band,
    )
}
