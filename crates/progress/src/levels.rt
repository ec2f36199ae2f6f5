// The level that a set is handed out of.
ghost use Rattle.std.specs.Prelude.{◌≡◌};
ghost use Rattle.lifting.specs.Grid.{side};
ghost use Rattle.filters.specs.Filters.{filter_of};
ghost use Rattle.progress.specs.Levels.{level_at};

use crate::counts;
use wavelet::sizes;

// Its columns and the first one's coordinate, the rows that it has received and the first one's coordinate, and the number of the set.
#[derive(Clone, Copy)]
pub struct Level {
    pub width: usize,
    pub x: usize,
    pub rows: usize,
    pub y: usize,
    pub set: usize,
}

// Level v, from 1, the first having w columns from x on and m rows from y on, c steps of the closing being done. Numbers alone: where it stands in the store,
// the writer carries.
pub fn level_of(filter: usize, w: usize, x: usize, y: usize, c: usize, v: usize, m: usize) -> Level
    ensures { result ≡ level_at (filter_of filter).ahead (side x w) y c v m }
{
    let mut width = w;
    let mut column = x;
    let mut rows = m;
    let mut row = y;
    let mut closed = c;
    let a = filters::look_ahead(filter);
    for _above in 1..v {
        rows = counts::minus(counts::made(filter, closed, row, rows), row % 2);
        row = sizes::next_start(row);
        closed = counts::minus(closed, a);
        width = sizes::low_count(column, width);
        column = sizes::next_start(column);
    }
    Level {
        width,
        x: column,
        rows,
        y: row,
        set: counts::minus(counts::made(filter, closed, row, rows), 1),
    }
}
