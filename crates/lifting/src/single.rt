// A level of one row, at an odd coordinate: each of its numbers is a column by itself, doubled on the way forward, and on the way back halved, if it is even.
// A level of one column, at an odd coordinate, likewise: its numbers stand one in a row.
ghost use Rattle.std.specs.Prelude.{◌≡◌, ◌*◌, pos, ◌*ℤ◌, length};
ghost use Rattle.std.specs.Int.Signed.{shr_z};
ghost use Rattle.numbers.specs.Signal.{at, pick};
ghost use Rattle.numbers.specs.Tests.{every};
ghost use Rattle.numbers.specs.Word.{wrap32};
ghost use Rattle.lifting.specs.Grid.{side, single_high, is_even};
ghost use Rattle.lifting.specs.Halves.{fronted};

use crate::sample;

// Whether h rows that start at y are one row at an odd coordinate.
pub fn is_single(h: usize, y: usize) -> bool
    ensures { result ≡ single_high (side y h) }
{
    y % 2 == 1 && h == 1
}

// Whether every number of a row is even.
pub fn all_even(row: &[i32]) -> bool
    ensures { result ≡ every (length row.now) (λ i. is_even (at row.now i)) }
{
    let mut ok = true;
    for x in row {
        ok = ok & sample::is_even(*x);
    }
    ok
}

// Every number of a row doubled.
pub fn double_all(row: &mut [i32])
    ensures { at row.new ≡
        fronted (length row.old) (λ i. wrap32 (pos 2 *ℤ at row.old i)) (at row.old) }
{
    for v in row.iter_mut() {
        *v = sample::double(*v);
    }
}

// Every number of a row halved; the answer is whether each was even.
pub fn halve_all(row: &mut [i32]) -> bool
    ensures even { result ≡ every (length row.old) (λ i. is_even (at row.old i)) }
    ensures row { at row.new ≡
        fronted (length row.old) (λ i. shr_z (at row.old i) 2) (at row.old) }
{
    let mut ok = true;
    for v in row.iter_mut() {
        ok = ok & sample::is_even(*v);
        *v = sample::halve(*v);
    }
    ok
}

// All halved if all are even; else false, and nothing is changed.
pub fn halve_even(row: &mut [i32]) -> bool
    ensures even { result ≡ every (length row.old) (λ i. is_even (at row.old i)) }
    ensures row { at row.new ≡ pick result
        (fronted (length row.old) (λ i. shr_z (at row.old i) 2) (at row.old)) (at row.old) }
{
    if !all_even(row) {
        return false;
    }
    halve_all(row);
    true
}

// Whether the first number of each of n rows, `stride` apart, is even; past the end of the area stands 0, which is.
pub fn column_even(area: &[i32], stride: usize, n: usize) -> bool
    ensures { result ≡ every n (λ i. is_even (at area.now (i * stride))) }
{
    let len = area.len();
    let mut p = 0;
    for _ in 0..n {
        if len <= p {
            return true;
        }
        if !sample::is_even(area[p]) {
            return false;
        }
        if len - p <= stride {
            return true;
        }
        p += stride;
    }
    true
}
