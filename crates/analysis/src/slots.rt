// The slots of a level's rows: the row at q stands in slot q modulo the rows kept. The rows kept are a number of the branch, so that the remainder is no
// division. The module is private: only this crate, which meets what is required, can call it.
ghost use Rattle.std.specs.Prelude.{◌≡◌, ◌+◌, ◌*◌, ◌%◌, ◌<◌, ◌≤◌};
ghost use Rattle.lifting.specs.Line.{lo, hi};
ghost use Rattle.filters.specs.Filters.{filter_of};
ghost use Rattle.analysis.specs.Sets.{waits_at};

// The slot of the row at q,
pub fn slot(filter: usize, q: usize) -> usize
    ensures { (result ≡ q % (filter_of filter).rows) × (result < 8) }
{
    if filter == 0 {
        return q % 4;
    }
    q % 8
}

// and of the row d past the even row of set n, whose coordinate 2n may be too large to be counted.
pub fn slot_on(filter: usize, n: usize, d: usize) -> usize
    requires { d ≤ 8 }
    ensures { (result ≡ (2 * n + d) % (filter_of filter).rows) × (result < 8) }
{
    slot(filter, 2 * (n % 4) + d)
}

// Where the low row of set n waits, and where its high row does.
pub fn low_waits(filter: usize, n: usize) -> usize
    ensures { (result ≡ waits_at (filter_of filter).ahead lo n % (filter_of filter).rows) × (result < 8) }
{
    if filter == 0 {
        return slot_on(filter, n, 4);
    }
    slot_on(filter, n, 6)
}

pub fn high_waits(filter: usize, n: usize) -> usize
    ensures { (result ≡ waits_at (filter_of filter).ahead hi n % (filter_of filter).rows) × (result < 8) }
{
    if filter == 0 {
        return slot_on(filter, n, 3);
    }
    slot_on(filter, n, 7)
}
