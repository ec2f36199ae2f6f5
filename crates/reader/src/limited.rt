// Rows drawn: modulo 65,536 from a reader without a stop, limited to heights from one with a stop (document 02, Q-6). The module is private: only this crate,
// which meets what is required, can call it.
ghost use Rattle.std.specs.Prelude.{◌≡◌, ◌<◌, ◌≤◌, pos, length, set};
ghost use Rattle.numbers.specs.Signal.{at};
ghost use Rattle.lifting.specs.Grid.{side, joined};
ghost use Rattle.lifting.specs.Halves.{fronted};
ghost use Rattle.lifting.specs.GridHalves.{halves_of};
ghost use Rattle.areas.specs.Areas.{heights_at, wholes};
ghost use Rattle.reader.specs.Limited.{limited, shown};

use areas::{lines, rows};
use wavelet::limits;

// A value limited to 0 to 65,535.
pub fn limit(v: i32) -> u16
    ensures { pos result ≡ limited v }
{
    if v < 0 {
        0
    } else if limits::MAX_SAMPLE < v {
        65535
    } else {
        v as u16
    }
}

// Number q of a row, limited, to height p.
fn limit_at(row: &[i32], q: usize, out: &mut [u16], p: usize)
    requires { (q < length row.now) × (p < length out.old) }
    ensures { wholes out.new ≡ set (wholes out.old) p (limited (at row.now q)) }
{
    out[p] = limit(row[q]);
}

// A row limited, at the front of `out`.
pub fn limit_row(row: &[i32], out: &mut [u16])
    requires { length row.now ≤ length out.old }
    ensures { heights_at out.new ≡
        fronted (length row.now) (λ c. limited (at row.now c)) (heights_at out.old) }
{
    for i in 0..row.len() {
        limit_at(row, i, out, i);
    }
}

// A row in halves to its own order, limited, at the front of `out`: a pair a turn.
fn interleave_limited(row: &[i32], start: usize, out: &mut [u16])
    requires { length row.now ≤ length out.old }
    ensures { heights_at out.new ≡
        fronted (length row.now) (λ c. limited (joined (side start (length row.now))
        (halves_of (side start (length row.now)) (at row.now)) c))
        (heights_at out.old) }
{
    let n = row.len();
    let even = rows::evens(n, start);
    let odd = rows::odds(n, start);
    let end = n / 2;
    for j in 0..end {
        limit_at(row, even + j, out, 2 * j);
        limit_at(row, odd + j, out, 2 * j + 1);
    }
    if 2 * end < n {
        limit_at(row, even + end, out, 2 * end);
    }
}

// A row in halves as a reader with this stop shows it, at the front of `out`.
pub fn draw_row(stop: usize, row: &[i32], start: usize, out: &mut [u16])
    requires { length row.now ≤ length out.old }
    ensures { heights_at out.new ≡
        fronted (length row.now) (λ c. shown stop (joined (side start (length row.now))
        (halves_of (side start (length row.now)) (at row.now)) c))
        (heights_at out.old) }
{
    if stop == 0 {
        let _ = lines::interleave_line(row, start, out);
        return;
    }
    interleave_limited(row, start, out);
}
