// Which rows a row of the columns goes by. The module is private: only this crate, which meets what is required, can call it.
ghost use Rattle.std.specs.Prelude.{◌≡◌, ◌-◌, ◌≤◌, ◌<◌, ◌^◌, pos};
ghost use Rattle.lifting.specs.Grid.{side};
ghost use Rattle.nine_seven.specs.NineSeven.{mirror};
ghost use Rattle.synthesis.specs.Columns.{row_before, row_after};

use level::sets;

// Place p of a line of n places, mirrored at the last one and at the first again and again. Most places are in the line: no division there.
fn mirrored(n: usize, p: usize) -> usize
    requires { (1 < n) × (n < 2 ^ 32) }
    ensures { (result ≡ mirror n (pos p)) × (result < n) }
{
    if p < n {
        return p;
    }
    let round = 2 * (n - 1);
    let on = p % round;
    let back = round - on;
    if on < back { on } else { back }
}

// The row k before the row at q, of h rows that start at y, mirrored,
pub fn row_before(h: usize, y: usize, k: usize, q: usize) -> usize
    requires { (1 < h) × (h < 2 ^ 32) × (k ≤ 3) × (q ≤ 2 ^ 34) }
    ensures { (result ≡ row_before (side y h) k q) × (result ≤ 2 ^ 32) }
{
    let b = y % 2;
    let i = sets::less(q, b);
    b + mirrored(h, sets::less(i, k) + sets::less(k, i))
}

// and the row k after it.
pub fn row_after(h: usize, y: usize, k: usize, q: usize) -> usize
    requires { (1 < h) × (h < 2 ^ 32) × (k ≤ 3) × (q ≤ 2 ^ 34) }
    ensures { (result ≡ row_after (side y h) k q) × (result ≤ 2 ^ 32) }
{
    let b = y % 2;
    b + mirrored(h, sets::less(q, b) + k)
}
