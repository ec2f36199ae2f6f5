// Heights into a row of a level, which stands in halves: the even coordinates first. The row is lent by itself, so that a level may keep any number of them;
// its columns start at x, of which only the parity counts.
ghost use Rattle.std.specs.Prelude.{◌≡◌, ◌+◌, ◌*◌, ◌^◌, ◌<◌, ◌≤◌, leb, length};
ghost use Rattle.numbers.specs.Signal.{at, pick};
ghost use Rattle.lifting.specs.Grid.{side};
ghost use Rattle.refusal.specs.Numbers.{answer};
ghost use Rattle.level.specs.Cells.{spot};
ghost use Rattle.level.specs.Heights.{height_at, heights_put, heights_fit};

use refusal::Refusal;
use wavelet::sizes;

// Where column c of a row of w stands.
fn cell(w: usize, x: usize, c: usize) -> usize
    requires { (w < 2 ^ 62) × (c ≤ w + 1) }
    ensures { result ≡ spot (side x w) c }
{
    if (x % 2 + c) % 2 == 0 {
        return c / 2;
    }
    sizes::low_count(x, w) + c / 2
}

// Pairs of heights to the columns from `column` on. One loop stores both of a pair: the compiler then reads whole vectors.
fn fill_pairs(row: &mut [i32], x: usize, column: usize, run: &[u16], pairs: usize)
    requires { (column + 2 * pairs ≤ length row.old) × (2 * pairs ≤ length run.now) }
    ensures { at row.new ≡
        heights_put (side x (length row.old)) column (2 * pairs) (height_at run.now) (at row.old) }
{
    let w = row.len();
    let first = cell(w, x, column);
    let second = cell(w, x, column + 1);
    for j in 0..pairs {
        row[first + j] = run[2 * j] as i32;
        row[second + j] = run[2 * j + 1] as i32;
    }
}

// Heights to the columns from `column` on: pairs, and the last by itself where their number is odd.
fn fill(row: &mut [i32], x: usize, column: usize, run: &[u16])
    requires { column + length run.now ≤ length row.old }
    ensures { at row.new ≡
        heights_put (side x (length row.old)) column (length run.now) (height_at run.now) (at row.old) }
{
    let w = row.len();
    let n = run.len();
    let pairs = n / 2;
    fill_pairs(row, x, column, run, pairs);
    let k = 2 * pairs;
    if k < n {
        let p = cell(w, x, column + k);
        row[p] = run[k] as i32;
    }
}

// Whether n numbers from place a on lie within `all`.
pub fn lies_in(a: usize, n: usize, all: usize) -> bool
    ensures { result ≡ leb (a + n) all }
{
    n <= all && a <= all - n
}

#[tactic(auto, unfolding(crate::specs::Heights::heights_fit))]
fn heights_fit(w: usize, column: usize, n: usize, all: usize, from: usize) -> bool
    ensures { result ≡ heights_fit w column n all from }
{
    lies_in(column, n, w) && lies_in(from, n, all)
}

// Heights `from` to `from + n` of a run are put into a row, from column `column` on. Refused, and nothing is changed, where the row has not as many columns
// or the run not as many heights.
pub fn put(
    row: &mut [i32],
    x: usize,
    column: usize,
    run: &[u16],
    from: usize,
    n: usize,
) -> Result<(), Refusal>
    ensures value { answer result ≡ pick (heights_fit (length row.old) column n (length run.now) from) 0 5 }
    ensures row_after { at row.new ≡ pick (heights_fit (length row.old) column n (length run.now) from)
        (heights_put (side x (length row.old)) column n (λ j. height_at run.now (from + j)) (at row.old)) (at row.old) }
{
    if heights_fit(row.len(), column, n, run.len(), from) {
        let end = from + n;
        fill(row, x, column, &run[from..end]);
        return Ok(());
    }
    Err(Refusal::AreaShort)
}
