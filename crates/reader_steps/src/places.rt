// Where a reader goes on: the place at which a number of a level begins, found level by level.
ghost use Rattle.std.specs.Prelude.{◌≡◌, ◌-◌};
ghost use Rattle.lifting.specs.Grid.{side};
ghost use Rattle.reader_steps.specs.Places.{spot, descend};

use crate::sets;
use wavelet::sizes;

// A level, one of its sets, and a band of it: the row wanted, or where a reader goes on. Level 0: a height row can be drawn.
// Stays: the band is a number, since a reader's state may hold any (`spot_of`), and where no row is wanted it is 4, no band's code.
#[derive(Clone, Copy)]
pub struct Spot {
    pub level: usize,
    pub set: usize,
    pub band: usize,
}

// The columns and the rows of a level: where each starts, and how many there are.
#[derive(Clone, Copy)]
pub struct Sides {
    pub x: usize,
    pub width: usize,
    pub y: usize,
    pub height: usize,
}

// Where number n of level `level`, of the sides v, begins, which takes row `row` of the level's low-low part: past each level whose set it needs. A set of a
// high row alone needs none.
pub fn descend_from(
    filter: usize,
    levels: usize,
    level: usize,
    v: Sides,
    n: usize,
    row: usize,
) -> Spot
    ensures { spot result.level result.set result.band ≡
        descend filter (levels - level) level (side v.x v.width) (side v.y v.height) n row }
{
    let mut wx = v.x;
    let mut w = v.width;
    let mut hy = v.y;
    let mut h = v.height;
    let mut m = n;
    let mut r = row;
    for k in level..levels {
        let s = sets::sets_before(filter, hy, h, r);
        if !sets::goes_down(filter, w, hy, h, r, s) {
            return Spot {
                level: k,
                set: m,
                band: 1,
            };
        }
        if s < hy % 2 {
            return Spot {
                level: k + 1,
                set: s,
                band: 1,
            };
        }
        m = s;
        r = s - hy % 2;
        w = sizes::low_count(wx, w);
        wx = sizes::next_start(wx);
        h = sizes::low_count(hy, h);
        hy = sizes::next_start(hy);
    }
    Spot {
        level: if level < levels { levels } else { level },
        set: m,
        band: 0,
    }
}
