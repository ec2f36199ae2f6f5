// The numbers that the writer derives on its way down the levels. A level has w columns, the first at coordinate x, and has received m rows, the first at
// coordinate y; `filter` is the number of the filter.
ghost use Rattle.std.specs.Prelude.{◌≡◌, ◌-◌, ◌%◌, nat_le, nat_lt};
ghost use Rattle.numbers.specs.Signal.{both};
ghost use Rattle.lifting.specs.Line.{hi};
ghost use Rattle.lifting.specs.Grid.{side, count};
ghost use Rattle.wavelet.specs.Bands.{across, down, code};
ghost use Rattle.wavelet.specs.Order.{first_set, last_set, set_row, set_has};
ghost use Rattle.level.specs.Level.{completes};
ghost use Rattle.filters.specs.Filters.{filter_of};
ghost use Rattle.progress.specs.Counts.{made, most, band_at, skip};

use wavelet::sizes;

// n less k, and 0 where k is more.
pub fn minus(n: usize, k: usize) -> usize
    ensures { result ≡ n - k }
{
    if n < k { 0 } else { n - k }
}

// How many sets a level has made, c steps of its closing being done: all of them, or all but those that are left for the steps to come. However many rows:
// y % 2 + m might not fit, so the rows are halved first.
pub fn made(filter: usize, c: usize, y: usize, m: usize) -> usize
    ensures { result ≡ made (filter_of filter).ahead c y m }
{
    let a = filters::look_ahead(filter);
    let all = m / 2 + (y % 2 + m % 2 + 1) / 2;
    if a <= c {
        return all;
    }
    let n = minus((y % 2 + minus(m, 1)) / 2 + 1, a) + c;
    if all < n {
        return all;
    }
    n
}

// Whether set n is one of them or the first that is not made: a set of the m rows.
pub fn is_left(y: usize, m: usize, n: usize) -> bool
    ensures { result ≡ both (nat_lt 0 m) (nat_le n (last_set (side y m))) }
{
    0 < m && n <= (y % 2 + (m - 1)) / 2
}

// Whether row m completes a set of the first of l levels.
pub fn makes_set(filter: usize, l: usize, y: usize, m: usize) -> bool
    ensures { result ≡ both (nat_lt 0 l) (completes (filter_of filter).ahead y m) }
{
    if l == 0 {
        return false;
    }
    if m < 2 * filters::look_ahead(filter) - y % 2 {
        return false;
    }
    y % 2 == m % 2
}

// Whether set n gives a row to the l levels below.
pub fn gives_row(l: usize, y: usize, n: usize) -> bool
    ensures { result ≡ both (nat_lt 0 l) (nat_le (y % 2) n) }
{
    0 < l && y % 2 <= n
}

// How many bands are handed out of a set of a level with l levels below it.
pub fn most(l: usize) -> usize
    ensures { result ≡ most l }
{
    if l == 0 { 4 } else { 3 }
}

// The code of the band that i bands come after in its set.
pub fn code(i: usize) -> usize
    ensures { result ≡ code (band_at i) }
{
    match i {
        0 => 3,
        1 => 2,
        2 => 1,
        _ => 0,
    }
}

// How many columns it has, and how many rows.
pub fn columns(w: usize, x: usize, i: usize) -> usize
    ensures { result ≡ count (across (band_at i)) (side x w) }
{
    match i {
        0 => sizes::high_count(x, w),
        1 => sizes::low_count(x, w),
        2 => sizes::high_count(x, w),
        _ => sizes::low_count(x, w),
    }
}

fn rows(m: usize, y: usize, i: usize) -> usize
    ensures { result ≡ count (down (band_at i)) (side y m) }
{
    if i < 2 {
        return sizes::high_count(y, m);
    }
    sizes::low_count(y, m)
}

// The first set that has a row of it.
fn first_set(m: usize, y: usize, i: usize) -> usize
    ensures { result ≡ first_set (side y m) (down (band_at i)) }
{
    if i < 2 {
        return 0;
    }
    y % 2
}

// Its row in set n.
pub fn set_row(m: usize, y: usize, n: usize, i: usize) -> usize
    ensures { result ≡ set_row (side y m) (band_at i) n }
{
    minus(n, first_set(m, y, i))
}

// Whether it has one.
fn has_row(w: usize, x: usize, m: usize, y: usize, n: usize, i: usize) -> bool
    ensures { result ≡ set_has (side x w) (side y m) (band_at i) n }
{
    if columns(w, x, i) == 0 {
        return false;
    }
    let f = first_set(m, y, i);
    if n < f {
        return false;
    }
    n - f < rows(m, y, i)
}

// Whether every band has a row in set n.
fn all_have(w: usize, m: usize, y: usize, n: usize) -> bool
    ensures { result ≡ both (nat_lt 1 w) (both (nat_le (y % 2) n) (nat_lt n (count hi (side y m)))) }
{
    if w <= 1 {
        return false;
    }
    if n < y % 2 {
        return false;
    }
    n < sizes::high_count(y, m)
}

// Of the last i bands of set n, those from the first on that has a row in it: all of them but at one column, and where the set lacks its low or its high row.
pub fn next_band(w: usize, x: usize, m: usize, y: usize, n: usize, i: usize) -> usize
    ensures { result ≡ skip (side x w) (side y m) n i }
{
    if all_have(w, m, y, n) {
        return i;
    }
    for k in (0..i).rev() {
        if has_row(w, x, m, y, n, k) {
            return k + 1;
        }
    }
    0
}
