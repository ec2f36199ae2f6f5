// Which numbers of one half a number of the other goes by, those of each half counted from 0: in a line, or the rows of a column. Where there is none such it
// is the nearest, but the farther ones of the first and of the last high number are mirrored.
ghost use Rattle.std.specs.Prelude.{◌≡◌, ◌-◌, ◌%◌};
ghost use Rattle.lifting.specs.Line.{lo};
ghost use Rattle.lifting.specs.Grid.{side, count};
ghost use Rattle.lifting.specs.Passes.{near};
ghost use Rattle.nine_seven.specs.Near.{Beside, AroundAny};

use crate::place;

// How many of n numbers are low, the first of them at coordinate `start`.
pub fn lows(n: usize, start: usize) -> usize
    ensures { result ≡ count lo (side start n) }
{
    if start % 2 == 0 {
        return n - n / 2;
    }
    n / 2
}

// The number of m that is nearest to k.
pub fn nearest(m: usize, k: usize) -> usize
    ensures { result ≡ near m k }
{
    if k < m {
        return k;
    }
    if m == 0 {
        return 0;
    }
    m - 1
}

// One less, and 0 of 0.
pub fn one_before(k: usize) -> usize
    ensures { result ≡ k - 1 }
{
    if k == 0 {
        return 0;
    }
    k - 1
}

// Of m numbers those beside number n of the other half; o, of which only the remainder by 2 counts, is 1 where the m begin the line.
#[derive(Clone, Copy)]
pub struct Two {
    pub left: usize,
    pub right: usize,
}

pub fn beside(m: usize, o: usize, n: usize) -> Two
    ensures { Beside m (o % 2) n result.left result.right }
{
    if m <= n {
        let last = nearest(m, n);
        return Two {
            left: last,
            right: last,
        };
    }
    let k = n + o % 2;
    let left = nearest(m, one_before(k));
    Two {
        left,
        right: nearest(m, k),
    }
}

// The low numbers around high number n of `high`; past the last of them 0.
#[derive(Clone, Copy)]
pub struct Four {
    pub left: usize,
    pub right: usize,
    pub before: usize,
    pub after: usize,
}

pub fn around(low: usize, high: usize, o: usize, n: usize) -> Four
    ensures { AroundAny low high (o % 2) n result.left result.right result.before result.after }
{
    if high <= n {
        return Four {
            left: 0,
            right: 0,
            before: 0,
            after: 0,
        };
    }
    let two = beside(low, o, n);
    let before = place::far_left(low, o % 2, n);
    Four {
        left: two.left,
        right: two.right,
        before,
        after: place::far_right(low, high, o % 2, n),
    }
}
