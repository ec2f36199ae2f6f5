// The heights that a cell reads, five columns of five, read once.
ghost use Rattle.std.specs.Prelude.{◌≡◌, ℕ, ◌+◌, ◌*◌, ◌<◌, length, get_or};
ghost use Rattle.nearest_change.specs.NearestChange.{ground_of};
ghost use Rattle.nearest_change.specs.Trials.{Within, IsWindow, column_in, lows_in};

use crate::five;
use crate::five::Five;

// The height in row r and column c.
fn height(heights: &[u16], width: usize, r: usize, c: usize) -> usize
    requires { r * width + c < length heights.now }
    ensures { (result ≡ ground_of width heights.now r c) × (result < 65536) }
{
    heights[r * width + c] as usize
}

// The heights of these rows and columns, column by column.
pub fn window(heights: &[u16], width: usize, rows: Five, columns: Five) -> [usize; 25]
    requires { Within (length heights.now) width rows columns }
    ensures window { IsWindow (ground_of width heights.now) rows columns result }
    ensures by_index { (j : ℕ) → get_or result j 0 < 65536 }
{
    let mut w = [0; 25];
    for j in 0..25 {
        w[j] = height(
            heights,
            width,
            five::number(rows, j % 5),
            five::number(columns, j / 5),
        );
    }
    w
}

// Column k of a window.
pub fn column(w: &[usize; 25], k: usize) -> Five
    requires { k < 5 }
    ensures { result ≡ column_in w.now k }
{
    Five {
        a: w[5 * k],
        b: w[5 * k + 1],
        c: w[5 * k + 2],
        d: w[5 * k + 3],
        e: w[5 * k + 4],
    }
}

// The low value of each column.
pub fn lows(w: &[usize; 25]) -> Five
    requires { (j : ℕ) → get_or w.now j 0 < 65536 }
    ensures { result ≡ lows_in w.now }
{
    Five {
        a: five::lifted(column(w, 0)),
        b: five::lifted(column(w, 1)),
        c: five::lifted(column(w, 2)),
        d: five::lifted(column(w, 3)),
        e: five::lifted(column(w, 4)),
    }
}
