// Sets of rows by the filter's number, and the bands that a set asks for: numbers alone, whatever they are. A side is its start and its length: x, w across
// and y, h down. Coordinates are halved, not doubled, where the double of a number might not fit.
ghost use Rattle.std.specs.Prelude.{◌≡◌, ℕ, ◌-◌, leb};
ghost use Rattle.numbers.specs.Signal.{both};
ghost use Rattle.lifting.specs.Grid.{side, count};
ghost use Rattle.lifting.specs.Line.{lo};
ghost use Rattle.wavelet.specs.Bands.{across};
ghost use Rattle.wavelet.specs.Order.{first_set, last_set, set_row};
ghost use Rattle.wavelet.specs.Steps.{set_of, sets_before};
ghost use Rattle.reader_steps.specs.Sets.{ahead, first_row, makes};
ghost use Rattle.reader_steps.specs.Asked.{named, next_band};
ghost use Rattle.reader_steps.specs.Places.{has_cells, has_set};

use wavelet::sizes;

// a less b, 0 where b is more.
pub fn less(a: usize, b: usize) -> usize
    ensures { result ≡ a - b }
{
    if a < b { 0 } else { a - b }
}

// The last set of a level.
pub fn last_set(y: usize, h: usize) -> usize
    ensures { result ≡ last_set (side y h) }
{
    if h == 0 { 0 } else { (y % 2 + (h - 1)) / 2 }
}

// Whether a level of w columns has set n: an empty level has none, nor has a level one after its last.
pub fn is_there(w: usize, y: usize, h: usize, n: usize) -> bool
    ensures { (x : ℕ) → result ≡ has_set (side x w) (side y h) n }
{
    if (w == 0) | (h == 0) {
        return false;
    }
    n <= last_set(y, h)
}

// The set that makes row r.
pub fn set_of(filter: usize, y: usize, h: usize, r: usize) -> usize
    ensures { result ≡ set_of (ahead filter) (side y h) r }
{
    let o = 1 - y % 2;
    if r < o {
        return 0;
    }
    let a = (r - o) / 2 + filters::look_ahead(filter);
    let b = last_set(y, h);
    if a < b { a } else { b }
}

// The first set that no row before row r needs.
pub fn sets_before(filter: usize, y: usize, h: usize, r: usize) -> usize
    ensures { result ≡ sets_before (ahead filter) (side y h) r }
{
    if r == 0 {
        0
    } else {
        set_of(filter, y, h, r - 1) + 1
    }
}

// Whether row r of w columns is there and needs set n.
pub fn goes_down(filter: usize, w: usize, y: usize, h: usize, r: usize, n: usize) -> bool
    ensures { (x : ℕ) → result ≡ both (has_cells (side x w) (side y h)) (leb n (set_of (ahead filter) (side y h) r)) }
{
    if (w == 0) | (h == 0) {
        return false;
    }
    n <= set_of(filter, y, h, r)
}

// The first row that needs set n or a later one, and whether set n makes it.
pub fn first_row(filter: usize, y: usize, h: usize, n: usize) -> usize
    ensures { result ≡ first_row filter (side y h) n }
{
    if (n == 0) | (h == 0) {
        return 0;
    }
    let m = less(n, filters::look_ahead(filter));
    if m < h / 2 { 2 * m + 1 - y % 2 } else { h - 1 }
}

pub fn is_making(filter: usize, y: usize, h: usize, n: usize) -> bool
    ensures { result ≡ makes filter (side y h) n }
{
    set_of(filter, y, h, first_row(filter, y, h, n)) <= n
}

// The row of the next level that set n takes.
pub fn row_below(y: usize, n: usize) -> usize
    ensures { (h : ℕ) → result ≡ n - first_set (side y h) lo }
{
    less(n, y % 2)
}

// The columns of a band.
pub fn band_columns(x: usize, w: usize, band: usize) -> usize
    ensures { result ≡ count (across (named band)) (side x w) }
{
    if (band == 0) | (band == 2) {
        sizes::low_count(x, w)
    } else {
        sizes::high_count(x, w)
    }
}

// The row of a band that set n has.
pub fn band_row(y: usize, h: usize, n: usize, band: usize) -> usize
    ensures { result ≡ set_row (side y h) (named band) n }
{
    if 1 < band {
        return n;
    }
    let p = y % 2;
    if n < p { 0 } else { n - p }
}

// The code of the first band from `first` on that set n asks for; 4 where there is none. Each band is tried: for a set at the level's first or last rows, or
// of a single column. The set's low row is at 2n and its high row at 2n + 1, past the last even coordinate that is not after the start; `row` is the number of
// the high one.
fn tried_band(last: bool, x: usize, w: usize, y: usize, h: usize, n: usize, first: usize) -> usize
    ensures { result ≡ next_band last (side x w) (side y h) n first }
{
    if h / 2 < n {
        return 4;
    }
    let left = x % 2 < w;
    let right = 1 - x % 2 < w;
    let row = 2 * n + 1 - y % 2;
    let low = (y % 2 <= n) & (row <= h);
    if last & (first == 0) & left & low {
        return 0;
    }
    if (first < 2) & right & low {
        return 1;
    }
    if h <= row {
        return 4;
    }
    if (first < 3) & left {
        return 2;
    }
    if (first < 4) & right {
        return 3;
    }
    4
}

// The same: a set between them has a row of every band, and LL is kept at the last level alone.
pub fn next_band(
    last: bool,
    x: usize,
    w: usize,
    y: usize,
    h: usize,
    n: usize,
    first: usize,
) -> usize
    ensures { result ≡ next_band last (side x w) (side y h) n first }
{
    if (w < 2) | (n == 0) | (h / 2 <= n) {
        return tried_band(last, x, w, y, h, n, first);
    }
    if first == 0 {
        return if last { 0 } else { 1 };
    }
    if first < 4 { first } else { 4 }
}
