// What is done to one row of numbers. The module is private: only this crate, which meets what is required, can call it.
ghost use Rattle.std.specs.Prelude.{◌≡◌, ◌≤◌, length};
ghost use Rattle.numbers.specs.Signal.{at};
ghost use Rattle.lifting.specs.Halves.{fronted};
ghost use Rattle.lifting.specs.Grid.{side};
ghost use Rattle.wavelet.specs.Maps.{every};
ghost use Rattle.map_levels.specs.Rowwise.{interleaved_in_place, between};

use wavelet::limits;

// The longest row that is interleaved in place: half the largest width, rounded up.
pub const LONGEST: usize = limits::MAX_WIDTH - limits::MAX_WIDTH / 2;

// Numbers copied to the front of `to`, and whether each lies from `low` to `high`: the test of a row that is copied anyway.
fn copy_tested(from: &[i32], to: &mut [i32], low: i32, high: i32) -> bool
    requires { length from.now ≤ length to.old }
    ensures value { result ≡ every (length from.now) (λ i. between low high (at from.now i)) }
    ensures to_after { at to.new ≡ fronted (length from.now) (at from.now) (at to.old) }
{
    let n = from.len();
    let mut ok = true;
    for i in 0..n {
        to[i] = from[i];
        ok = ok & (low <= from[i]) & (from[i] <= high);
    }
    ok
}

// A row from halves into its own order, in place, through a line that is lent; and whether each of its numbers lies from `low` to `high`.
pub fn interleave(row: &mut [i32], x: usize, line: &mut [i32], low: i32, high: i32) -> bool
    requires { length row.old ≤ length line.old }
    ensures value { result ≡ every (length row.old) (λ i. between low high (at row.old i)) }
    ensures row_after { at row.new ≡ interleaved_in_place (side x (length row.old)) (at row.old) }
{
    let n = row.len();
    let ok = copy_tested(row, line, low, high);
    let _ = areas::lines::interleave_line(&line[0..n], x, row);
    ok
}
