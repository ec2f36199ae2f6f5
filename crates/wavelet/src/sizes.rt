// The sides of the levels, where each starts and how long it is, and the range of their coefficients.
ghost use Rattle.std.specs.Prelude.{◌≡◌, ℕ, min, pos};
ghost use Rattle.lifting.specs.Line.{lo, hi};
ghost use Rattle.lifting.specs.Grid.{side, count};
ghost use Rattle.lifting.specs.FiveThree.{five_three_filter};
ghost use Rattle.wavelet.specs.Limits.{max_levels, range};
ghost use Rattle.wavelet.specs.Levels.{next, side_at};

use crate::limits;

// The even coordinates of a side, ⌈n / 2⌉ or ⌊n / 2⌋, for every n: n + 1 might not fit.
pub fn low_count(start: usize, n: usize) -> usize
    ensures { result ≡ count lo (side start n) }
{
    if start % 2 == 0 { n - n / 2 } else { n / 2 }
}

// The odd ones.
pub fn high_count(start: usize, n: usize) -> usize
    ensures { result ≡ count hi (side start n) }
{
    if start % 2 == 0 { n / 2 } else { n - n / 2 }
}

// Where the next level starts, however long the side is.
pub fn next_start(start: usize) -> usize
    ensures { (n : ℕ) → result ≡ (next (side start n)).start }
{
    start - start / 2
}

// The most halvings that change a side. After 64 it starts at 0 or 1 and has one coordinate or none; a single 1 is gone after another, and then it stays.
const MOST_TURNS: usize = 65;

// Where level `level` starts, however long the side is.
pub fn start_at(level: usize, start: usize) -> usize
    ensures { (n : ℕ) → result ≡ (side_at level (side start n)).start }
{
    let mut from = start;
    for _ in 0..level.min(MOST_TURNS) {
        from = next_start(from);
    }
    from
}

// How long level `level` of a side is: W(level) of the columns from x on.
pub fn size_at(level: usize, start: usize, n: usize) -> usize
    ensures { result ≡ (side_at level (side start n)).length }
{
    let mut from = start;
    let mut length = n;
    for _ in 0..level.min(MOST_TURNS) {
        length = low_count(from, length);
        from = next_start(from);
    }
    length
}

// The largest magnitude of a coefficient of a level, 65,535 × 4^level; past the last level, that of the last.
pub fn range_of(level: usize) -> i32
    ensures { result ≡ pos (range five_three_filter (min level max_levels)) }
{
    let mut most = limits::MAX_SAMPLE;
    for _ in 0..level.min(limits::MAX_LEVELS) {
        most = 4 * most;
    }
    most
}
