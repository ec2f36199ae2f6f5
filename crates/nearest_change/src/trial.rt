// One trial: does the cell change with this height? Trials are numbered in the order of the answer: by difference, raises before cuts, rows, columns.
ghost use Rattle.std.specs.Prelude.{◌≡◌, ◌+◌, ◌*◌, ◌<◌, ◌≤◌};
ghost use Rattle.wavelet.specs.Limits.{max_sample};
ghost use Rattle.nearest_change.specs.Trials.{Ready, altered, altered_by, inside, tried};

use crate::five::Five;
use crate::{five, window};
use wavelet::limits;

// A cell: the heights of its window, the map's size, the cell's row and column, the rows and columns of the window, the low values of its columns, and its own
// value.
#[derive(Clone, Copy)]
pub struct Cell {
    pub window: [usize; 25],
    pub height: usize,
    pub width: usize,
    pub row: usize,
    pub column: usize,
    pub rows: Five,
    pub columns: Five,
    pub lows: Five,
    pub value: usize,
}

// The largest height.
fn largest() -> usize
    ensures { result ≡ max_sample }
{
    limits::MAX_SAMPLE as usize
}

// Is coordinate q − 2 one of a line of n?
fn is_inside(n: usize, q: usize) -> bool
    requires { n < 4294967296 }
    ensures { result ≡ inside n q }
{
    2 <= q && q < n + 2
}

impl Cell {
    // Does the cell change with this height at row i and column k of the window?
    fn alters(&self, i: usize, k: usize, new: usize) -> bool
        requires { Ready self.now.window self.now × (i < 5) × (k < 5) × (2 ≤ 2 * self.now.row + i) × (2 ≤ 2 * self.now.column + k) × (new < 65536) }
        ensures { result ≡ altered self.now.window self.now i k new }
    {
        let place = 2 * self.row + i - 2;
        let low = five::lifted(five::replaced(
            window::column(&self.window, k),
            self.rows,
            place,
            new,
        ));
        five::lifted(five::replaced(self.lows, self.columns, 2 * self.column + k - 2, low))
            != self.value
    }

    // The same with the height that stands there raised or cut, where it stays a height.
    fn alters_by(&self, i: usize, k: usize, cut: bool, by: usize) -> bool
        requires { Ready self.now.window self.now × (i < 5) × (k < 5) × (2 ≤ 2 * self.now.row + i) × (2 ≤ 2 * self.now.column + k) × (by < 5) }
        ensures { result ≡ altered_by self.now.window self.now i k cut by }
    {
        let old = self.window[5 * k + i];
        if cut {
            return by <= old && self.alters(i, k, old - by);
        }
        old + by <= largest() && self.alters(i, k, old + by)
    }

    // Trial t: a place outside the map is none.
    pub fn works(&self, t: usize) -> bool
        requires { Ready self.now.window self.now × (t < 200) }
        ensures { result ≡ tried self.now.window self.now t }
    {
        let i = t / 5 % 5;
        let k = t % 5;
        if !is_inside(self.height, 2 * self.row + i) {
            return false;
        }
        if !is_inside(self.width, 2 * self.column + k) {
            return false;
        }
        self.alters_by(i, k, t / 25 % 2 == 1, t / 50 + 1)
    }
}
