// One direction of a level: its places, the window of them that is lifted, and the places that are changed.
ghost use Rattle.std.specs.Prelude.{◌≡◌, ◌+◌, ◌-◌, ◌*◌, ◌/◌, ◌^◌, ◌≤◌, ◌<◌, min};
ghost use Rattle.wavelet.specs.Limits.{max_levels};
ghost use Rattle.strokes.specs.Local.{lowered_of, next_of, widened_of, unread_before, unread_past, used_in};

#[derive(Clone, Copy)]
pub struct Direction {
    pub length: usize,
    pub start: usize,
    pub size: usize,
    pub first: usize,
    pub last: usize,
}

// A level of a window: how far apart its rows stand in the work area, and the plane's in the plane.
#[derive(Clone, Copy)]
pub struct Level {
    pub columns: Direction,
    pub rows: Direction,
    pub stride: usize,
    pub across: usize,
}

// Some numbers of a half: the first one's place in the plane, in a row of the window and among its rows, and how many they are.
#[derive(Clone, Copy)]
pub struct Part {
    pub plane: usize,
    pub across: usize,
    pub down: usize,
    pub count: usize,
}

// 2 to the power of the levels.
fn power(levels: usize) -> usize
    requires { (1 ≤ levels) × (levels ≤ max_levels) }
    ensures { (result ≡ 2 ^ levels) × (2 ≤ result) × (result < 2 ^ 16) }
{
    1 << levels
}

// The map's: n changed places from `first` on, of `length`. The window starts at a multiple of 2^levels, so that it starts at an even place at every level;
// it ends with the map, or one past such a multiple.
pub fn widened(length: usize, first: usize, n: usize, levels: usize) -> Direction
    requires { (1 ≤ levels) × (levels ≤ max_levels) × (1 ≤ n) × (first + n ≤ length) × (length < 2 ^ 32) }
    ensures { result ≡ widened_of length first n (2 ^ levels) }
{
    let q = power(levels);
    let start = q * ((first + 1) / q).saturating_sub(3);
    let last = first + n - 1;
    let end = length.min(q * ((last + q - 2) / q + 3) + 1);
    Direction {
        length,
        start,
        size: end.saturating_sub(start),
        first,
        last,
    }
}

// How many places of the map's window are not read: at its start, and at its end. None where the end is the map's own.
pub fn before(d: Direction) -> usize
    ensures { result ≡ unread_before d }
{
    if d.start == 0 {
        return 0;
    }
    2
}

pub fn past(d: Direction) -> usize
    requires { d.start + d.size < 2 ^ 62 }
    ensures { result ≡ unread_past d }
{
    if d.start + d.size < d.length {
        return 2;
    }
    0
}

// The next level's.
fn lowered(d: Direction) -> Direction
    requires { d.last ≤ 2 ^ 32 }
    ensures { result ≡ lowered_of d }
{
    Direction {
        length: d.length - d.length / 2,
        start: d.start / 2,
        size: d.size - d.size / 2,
        first: d.first.saturating_sub(1) / 2,
        last: d.last / 2 + 1,
    }
}

// The next level of a window: every second row, the work area's next ones being the low ones.
pub fn next(l: Level) -> Level
    requires { (l.columns.last ≤ 2 ^ 32) × (l.rows.last ≤ 2 ^ 32) × (l.stride < 2 ^ 32) }
    ensures { result ≡ next_of l }
{
    Level {
        columns: lowered(l.columns),
        rows: lowered(l.rows),
        stride: 2 * l.stride,
        across: l.across,
    }
}

// Whether place r of the window is read once its direction is lifted: a low value, which the next level reads, or a high one in reach.
pub fn is_used(d: Direction, r: usize) -> bool
    requires { (d.start + r < 2 ^ 62) × (d.last < 2 ^ 62) }
    ensures { result ≡ used_in d r }
{
    if r % 2 == 0 {
        return true;
    }
    let place = d.start + r;
    if place + 1 < d.first {
        return false;
    }
    place <= d.last + 1
}

// The numbers of a half that are in reach, where the first of them stands and how many there are; `high` is 1 for the high half and 0 for the low one.
pub fn part_of(d: Direction, high: usize) -> Part
    requires { (d.first ≤ 2 ^ 32) × (d.last ≤ 2 ^ 32) × (d.length ≤ 2 ^ 32) × (d.size ≤ 2 ^ 32) × (d.start / 2 ≤ (d.first - 1) / 2) × (high ≤ 1) }
    ensures { (result.plane ≡ high * (d.length - d.length / 2) + (d.first - 1) / 2)
        × (result.across ≡ high * (d.size - d.size / 2) + ((d.first - 1) / 2 - d.start / 2))
        × (result.down ≡ 2 * ((d.first - 1) / 2 - d.start / 2) + high)
        × (result.count ≡ min ((d.length + 1 - high) / 2) (d.last / 2 + 2 - high) - (d.first - 1) / 2) }
{
    let length = d.length;
    let size = d.size;
    let first = d.first.saturating_sub(1) / 2;
    let inner = first - d.start / 2;
    let end = ((length + 1 - high) / 2).min(d.last / 2 + 2 - high);
    if high == 0 {
        return Part {
            plane: first,
            across: inner,
            down: 2 * inner,
            count: end.saturating_sub(first),
        };
    }
    Part {
        plane: length - length / 2 + first,
        across: size - size / 2 + inner,
        down: 2 * inner + 1,
        count: end.saturating_sub(first),
    }
}
