// A row in halves lifted back into a line with each sum stored in 32 bits. The low half may stand apart from the row. The module is private, as `rowwise` is.
ghost use Rattle.std.specs.Prelude.{◌≡◌, ℕ, ◌+◌, ◌-◌, ◌<◌, ◌≤◌, length, set};
ghost use Rattle.std.specs.Int.Signed.{shr_z};
ghost use Rattle.numbers.specs.Signal.{at};
ghost use Rattle.lifting.specs.Line.{lo};
ghost use Rattle.lifting.specs.Grid.{side, count};
ghost use Rattle.lifting.specs.GridHalves.{highs_laid};
ghost use Rattle.map_levels.specs.SweepBack.{short_unpredicted, short_unupdated, short_unlifted};
ghost use Rattle.map_levels.specs.BackLines.{low_back, high_back};

use crate::short;
use lifting::sample;

// Place p of `out`: low number p without its update by two numbers of the row.
fn unupdate_to(low: &[i32], row: &[i32], out: &mut [i32], p: usize, a: usize, b: usize)
    requires { (p < length low.now) × (a < length row.now) × (b < length row.now) × (p < length out.old) }
    ensures { out.new ≡ set out.old p (short_unupdated (at low.now p) (at row.now a)
        (at row.now b)) }
{
    out[p] = short::unupdate(low[p], row[a], row[b]);
}

// Place p of `out`: number p of the row without its prediction by two other places of `out`.
fn unpredict_to(row: &[i32], out: &mut [i32], p: usize, a: usize, b: usize)
    requires { (p < length row.now) × (a < length out.old) × (b < length out.old) × (p < length out.old) }
    ensures { out.new ≡ set out.old p (short_unpredicted (at row.now p) (at out.old a)
        (at out.old b)) }
{
    out[p] = short::unpredict(row[p], out[a], out[b]);
}

// The last low number, n, where no high number follows it.
fn last_low(low: &[i32], row: &[i32], out: &mut [i32], n: usize)
    requires { (0 < length row.now) × (length low.now ≤ length out.old) }
    ensures out_after { n < length low.now → out.new ≡ set out.old n (short_unupdated (at low.now n)
        (at row.now (length row.now - 1)) (at row.now (length row.now - 1))) }
    ensures out_unchanged { length low.now ≤ n → out.new ≡ out.old }
{
    if low.len() <= n {
        return;
    }
    let last = row.len() - 1;
    unupdate_to(low, row, out, n, last, last);
}

// The first low number, where the line begins with it.
fn first_low(low: &[i32], row: &[i32], out: &mut [i32], o: usize)
    requires { (0 < length low.now) × (length low.now < length row.now) × (length low.now ≤ length out.old) }
    ensures out_after { o ≡ 0 → out.new ≡ set out.old 0 (short_unupdated (at low.now 0)
        (at row.now (length low.now)) (at row.now (length low.now))) }
    ensures out_unchanged { 0 < o → out.new ≡ out.old }
{
    if 0 < o {
        return;
    }
    let m = low.len();
    unupdate_to(low, row, out, 0, m, m);
}

// Each low number n by its high neighbours n + o - 1 and n + o. The first one may have none before it: the loop reads what stands there, since so many turns as
// are whole vectors cost least, and the number is made behind it.
fn unlift_lows(low: &[i32], row: &[i32], out: &mut [i32], o: usize)
    requires { (0 < length low.now) × (length low.now < length row.now) × (o ≤ 1) × (length row.now ≤ length low.now + length low.now + o)
        × (length low.now + length low.now + o ≤ length row.now + 1) × (length out.old ≡ length row.now) }
    ensures { (n : ℕ) → n < length low.now → at out.new n ≡
        low_back o (length low.now) (length row.now) (at low.now) (at row.now) n }
{
    let m = low.len();
    let end = row.len() - m - o;
    for n in 0..end {
        unupdate_to(low, row, out, n, m + n + o - 1, m + n + o);
    }
    last_low(low, row, out, end);
    first_low(low, row, out, o);
}

// The first high number, where the line begins with it.
fn first_high(row: &[i32], out: &mut [i32], m: usize, o: usize)
    requires { (m < length row.now) × (length out.old ≡ length row.now) }
    ensures out_after { o ≡ 0 → out.new ≡ set out.old m (short_unpredicted (at row.now m)
        (at out.old 0) (at out.old 0)) }
    ensures out_unchanged { 0 < o → out.new ≡ out.old }
{
    if 0 < o {
        return;
    }
    unpredict_to(row, out, m, 0, 0);
}

// The last one, n, where no low number follows it.
fn last_high(row: &[i32], out: &mut [i32], m: usize, n: usize)
    requires { (0 < m) × (m < length row.now) × (n ≤ m) × (length out.old ≡ length row.now) }
    ensures out_after { m + n < length row.now → out.new ≡ set out.old (m + n) (short_unpredicted (at row.now (m + n))
        (at out.old (m - 1)) (at out.old (m - 1))) }
    ensures out_unchanged { length row.now ≤ m + n → out.new ≡ out.old }
{
    if row.len() <= m + n {
        return;
    }
    unpredict_to(row, out, m + n, m - 1, m - 1);
}

// Each high number n by its low neighbours n + o - 1 and n + o, of the m in `out`.
fn unlift_highs(row: &[i32], out: &mut [i32], m: usize, o: usize)
    requires { (0 < m) × (m < length row.now) × (o ≤ 1) × (m + m ≤ length row.now + o) × (length row.now + o ≤ m + m + 1)
        × (length out.old ≡ length row.now) }
    ensures by_index { (j : ℕ) → j < m → at out.new j ≡ at out.old j }
    ensures by_index_2 { (n : ℕ) → m + n < length row.now → at out.new (m + n) ≡
        high_back o m (at row.now) (at out.old) n }
{
    let end = m - o;
    for n in 1 - o..end {
        unpredict_to(row, out, m + n, n + o - 1, n + o);
    }
    last_high(row, out, m, end);
    first_high(row, out, m, o);
}

// A row of one number: a high one is halved.
fn unlift_one(low: &[i32], row: &[i32], out: &mut [i32])
    requires { (length row.now ≡ 1) × (length out.old ≡ 1) }
    ensures out_after { 0 < length low.now → out.new ≡ set out.old 0 (at low.now 0) }
    ensures out_after_2 { length low.now ≡ 0 → out.new ≡ set out.old 0 (shr_z (at row.now 0) 2) }
{
    if low.len() == 0 {
        out[0] = sample::halve(row[0]);
        return;
    }
    out[0] = low[0];
}

// The row in halves whose low half is `low` and whose high half stands in `row`, to the line `out`, as long.
pub fn unlift(low: &[i32], row: &[i32], start: usize, out: &mut [i32])
    requires { (0 < length row.now) × (length low.now ≡ count lo (side start (length row.now))) × (length out.old ≡ length row.now) }
    ensures { (j : ℕ) → j < length row.now → at out.new j ≡
        short_unlifted (side start (length row.now)) (highs_laid (side start (length row.now)) (at row.now)
        (at low.now)) j }
{
    if row.len() < 2 {
        unlift_one(low, row, out);
        return;
    }
    let b = start % 2;
    unlift_lows(low, row, out, b);
    unlift_highs(row, out, low.len(), 1 - b);
}
