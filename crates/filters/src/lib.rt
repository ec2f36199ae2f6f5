// The table of filters, by number, 0 the 5/3 and 1 the integer 9/7: levels, rows kept, look-ahead, ranges, what a stream needs, and which numbers are filters
// (question 18). Any other number counts as 1 here; question 18 is asked above.
#![tactic(auto)]

pub mod range;

ghost use Rattle.std.specs.Prelude.{◌≡◌, min, pos, leb};
ghost use Rattle.numbers.specs.Signal.{pick, both};
ghost use Rattle.lifting.specs.Grid.{side};
ghost use Rattle.wavelet.specs.Limits.{max_width, range};
ghost use Rattle.filters.specs.Filters.{filter_of, is_filter};
ghost use Rattle.filters.specs.Figures.{store_by, writer_store_by, any_by, streamable};

use wavelet::{limits, sizes, store};

// Is this the number of a filter?
pub fn is_filter(filter: usize) -> bool
    ensures { result ≡ is_filter filter }
{
    filter <= 1
}

// The most levels of a map,
pub fn most_levels(filter: usize) -> usize
    ensures { result ≡ (filter_of filter).levels }
{
    if filter == 0 {
        limits::MAX_LEVELS
    } else {
        range::MAX_LEVELS
    }
}

// the rows of its columns that a level of a stream keeps,
pub fn rows_kept(filter: usize) -> usize
    ensures { result ≡ (filter_of filter).rows }
{
    if filter == 0 { 4 } else { 8 }
}

// how far a set looks ahead,
pub fn look_ahead(filter: usize) -> usize
    ensures { result ≡ (filter_of filter).ahead }
{
    if filter == 0 { 1 } else { 2 }
}

// and the largest magnitude of a coefficient of a level; past the last level, that of the last.
pub fn range_of(filter: usize, level: usize) -> i32
    ensures { result ≡ pos (range (filter_of filter) (min level (filter_of filter).levels)) }
{
    if filter == 0 {
        return sizes::range_of(level);
    }
    range::range_of(level)
}

// How many numbers the line store needs, of the columns from x on; 0 where the filter, the width or the levels are not a stream's.
pub fn store_length(filter: usize, width: usize, x: usize, levels: usize) -> usize
    ensures { result ≡ pick (streamable filter (side x width) levels) (store_by filter (side x width) levels) 0 }
{
    if !is_filter(filter) {
        return 0;
    }
    if most_levels(filter) < levels {
        return 0;
    }
    rows_kept(filter) * store::widths(width, x, levels)
}

// The same for a writer: the spare row of its columns besides, right after the levels' stretches (document 02, Q-2).
pub fn writer_store_length(filter: usize, width: usize, x: usize, levels: usize) -> usize
    ensures { result ≡ pick (streamable filter (side x width) levels) (writer_store_by filter (side x width) levels) 0 }
{
    let n = store_length(filter, width, x, levels);
    if n == 0 {
        return 0;
    }
    n + width
}

// Whether n numbers are enough for so many columns, wherever they start, at every number of levels. So the sizes are seldom added up.
pub fn holds_any(filter: usize, width: usize, n: usize) -> bool
    ensures { result ≡ both (leb width max_width) (leb (any_by filter width) n) }
{
    if limits::MAX_WIDTH < width {
        return false;
    }
    rows_kept(filter) * store::any_widths(width) <= n
}
