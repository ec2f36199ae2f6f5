// The rows that a set's rows go by, whatever filter the level has.
ghost use Rattle.std.specs.Prelude.{◌≡◌, ◌-◌, ◌%◌, ◌^◌, ◌<◌, ltb};
ghost use Rattle.numbers.specs.Signal.{pick};
ghost use Rattle.lifting.specs.Grid.{side};
ghost use Rattle.wavelet.specs.Levels.{next};
ghost use Rattle.level.specs.Stretch.{local};

use wavelet::sizes;

// a − b, and 0 where b is more.
pub fn less(a: usize, b: usize) -> usize
    ensures { result ≡ a - b }
{
    if a < b { 0 } else { a - b }
}

// The low-low row of set n, of a level whose rows start at y, is a row of the next level: its coordinate past the last even one that is not after that level's
// start. 0 where n is too large to be counted on from.
pub fn low_row(y: usize, n: usize) -> usize
    ensures { result ≡ pick (ltb n (2 ^ 62)) (local (next (side y 0)).start (n - y % 2)) 0 }
{
    if n < 4611686018427387904 {
        return sizes::next_start(y) % 2 + less(n, y % 2);
    }
    0
}
