// Places only: nothing is read or written.
ghost use Rattle.std.specs.Prelude.{◌≡◌, ◌+◌, leb};
ghost use Rattle.numbers.specs.Signal.{both};
ghost use Rattle.lifting.specs.Grid.{side, half};
ghost use Rattle.areas.specs.Places.{begins};

// Where the numbers of a line's even places begin in its row in halves: they are the low half, or the high one where the line starts at an odd coordinate.
pub fn evens(n: usize, start: usize) -> usize
    ensures { result ≡ begins (side start n) (half start) }
{
    if start % 2 == 0 {
        return 0;
    }
    n / 2
}

// Those of its odd places, the other half.
pub fn odds(n: usize, start: usize) -> usize
    ensures { result ≡ begins (side start n) (half (start + 1)) }
{
    if start % 2 == 0 {
        return n - n / 2;
    }
    0
}

// Whether n numbers at place `to` end before n numbers at place `from` begin, and these within `len`. Sums might not fit, so differences are asked.
pub fn apart(len: usize, from: usize, to: usize, n: usize) -> bool
    ensures { result ≡ both (leb (to + n) from) (leb (from + n) len) }
{
    if from < n {
        return false;
    }
    if from - n < to {
        return false;
    }
    if len < n {
        return false;
    }
    from <= len - n
}
