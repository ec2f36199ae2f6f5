// The order of band rows, from the words of documents 01 and 02: the rows that a writer makes, and the steps of a reader. Rows and sets go by grid
// coordinates: set n of a level has its rows at 2n, low, and 2n + 1, high, where the level has them, and its low row is row n of the next level.
use crate::area;
use wavelet::shape::Shape;

// More steps than the reader of any map that is compared takes.
const STEPS: usize = 4200;

// More rows than any of them has.
const ROWS: usize = 1040;

// The bands in the order of their numbers.
#[derive(Clone, Copy)]
pub enum Band {
    LL,
    HL,
    LH,
    HH,
}

impl Band {
    fn number(self) -> usize {
        self as usize
    }

    // High along rows: HL, HH. High along columns: LH, HH.
    fn is_right(self) -> bool {
        matches!(self, Band::HL | Band::HH)
    }

    fn is_bottom(self) -> bool {
        matches!(self, Band::LH | Band::HH)
    }
}

// A row of a band.
#[derive(Clone, Copy)]
pub struct Row {
    level: usize,
    band: Band,
    row: usize,
}

impl Row {
    // 1 where it is not this one.
    pub fn differ(self, level: usize, band: usize, row: usize) -> u64 {
        if self.level != level {
            return 1;
        }
        if self.band.number() != band {
            return 1;
        }
        area::differ(self.row, row)
    }

    // How many numbers it has.
    pub fn length(self, s: Shape) -> usize {
        places(columns_of(s, self.level), self.band.is_right())
    }

    // Where it starts in the plane.
    pub fn start(self, s: Shape) -> usize {
        let top = offset(rows_of(s, self.level), self.band.is_bottom());
        let left = offset(columns_of(s, self.level), self.band.is_right());
        area::cell(s.width, top.wrapping_add(self.row), left)
    }

    // The band row of a plane.
    pub fn view<'a>(self, plane: &'a [i32], s: Shape) -> &'a [i32] {
        wavelet::view::band_row(plane, s, self.level, self.band.number(), self.row)
    }
}

// A step of a reader: a height row is drawn, or a band row is fed.
#[derive(Clone, Copy)]
pub enum Step {
    Draw,
    Feed(Row),
}

// Where the part that a level lifts begins, or ends, of a side that begins, or ends, at coordinate c.
fn lifted_bound(c: usize, level: usize) -> usize {
    if level == 0 {
        return c;
    }
    area::bound(c, level - 1)
}

// The coordinates of a side: `from` up to `to`.
#[derive(Clone, Copy)]
struct Side {
    from: usize,
    to: usize,
}

// The columns and the rows of the part that a level lifts.
fn columns_of(s: Shape, level: usize) -> Side {
    let x = s.x as usize;
    Side {
        from: lifted_bound(x, level),
        to: lifted_bound(x.wrapping_add(s.width), level),
    }
}

fn rows_of(s: Shape, level: usize) -> Side {
    let y = s.y as usize;
    Side {
        from: lifted_bound(y, level),
        to: lifted_bound(y.wrapping_add(s.height), level),
    }
}

// How many of a side's places are low or high.
fn places(d: Side, is_high: bool) -> usize {
    if is_high {
        return (d.to / 2).saturating_sub(d.from / 2);
    }
    area::half(d.to).saturating_sub(area::half(d.from))
}

// Whether a side has a coordinate.
fn has(d: Side, c: usize) -> bool {
    d.from <= c && c < d.to
}

fn offset(d: Side, is_high: bool) -> usize {
    if is_high {
        return places(d, false);
    }
    0
}

fn twice(n: usize) -> usize {
    n.wrapping_add(n)
}

// The coordinate of a set's low row, or of its high row.
fn coordinate(set: usize, is_high: bool) -> usize {
    if is_high {
        return twice(set).wrapping_add(1);
    }
    twice(set)
}

// The number of a set's row in its band: those before it that the level has are counted.
fn row_in_band(d: Side, set: usize, is_high: bool) -> usize {
    if is_high {
        return set.saturating_sub(d.from / 2);
    }
    set.saturating_sub(area::half(d.from))
}

// Does the row at a coordinate make a set of a level whose rows begin at `from`? "Set n of a level is made when its row 2n+2 is complete."
fn makes_set(c: usize, from: usize) -> bool {
    from < c && c % 2 == 0
}

// The set that row 2n + 2 makes: n.
fn set_before(c: usize) -> usize {
    (c / 2).saturating_sub(1)
}

// Has a set of a level a low row? It is row `set` of the next level.
fn has_low(s: Shape, level: usize, set: usize) -> bool {
    has(rows_of(s, level), twice(set))
}

// The last set of a side that ends before a coordinate.
fn last_set(to: usize) -> usize {
    to.saturating_sub(1) / 2
}

// The set that makes the row at a coordinate of a level whose rows end before `to`: "rows 2n−1 and 2n", and the last set a last row at an odd coordinate.
fn set_with(c: usize, to: usize) -> usize {
    area::half(c).min(last_set(to))
}

// Does the row at a coordinate need a set that no row before it needs?
fn opens(d: Side, c: usize) -> bool {
    if c == d.from {
        return true;
    }
    c % 2 == 1 && c / 2 + 1 == set_with(c, d.to)
}

// The coordinate at a level, from 0, of the row that the row at a coordinate of the map needs: each is the set of the level before.
fn row_at_level(s: Shape, row: usize, level: usize) -> usize {
    let mut c = row;
    for k in 1..=level {
        c = set_with(c, rows_of(s, k).to);
    }
    c
}

// How many levels are asked for a set before the row at a coordinate can be drawn: "Made rows are used before another set is asked for." A set without a low
// row asks nothing of the next level.
fn depth(s: Shape, row: usize) -> usize {
    for k in 0..s.levels {
        let c = row_at_level(s, row, k);
        let d = rows_of(s, k + 1);
        if !opens(d, c) {
            return k;
        }
        if !has_low(s, k + 1, set_with(c, d.to)) {
            return k + 1;
        }
    }
    s.levels
}

// Steps in their order.
#[derive(Drop)]
pub struct Steps {
    steps: [Step; STEPS],
    count: usize,
}

impl Steps {
    fn new() -> Steps {
        Steps {
            steps: [Step::Draw; STEPS],
            count: 0,
        }
    }

    pub fn count(&self) -> usize {
        self.count
    }

    pub fn at(&self, i: usize) -> Option<Step> {
        if i < self.count && i < STEPS {
            return Some(self.steps[i]);
        }
        None
    }

    fn push(&mut self, step: Step) {
        if self.count < STEPS {
            self.steps[self.count] = step;
            self.count += 1;
        }
    }

    // A row of a set, if its band has one.
    fn push_band(&mut self, s: Shape, level: usize, band: Band, set: usize) {
        let d = rows_of(s, level);
        let row = Row {
            level,
            band,
            row: row_in_band(d, set, band.is_bottom()),
        };
        if row.length(s) == 0 {
            return;
        }
        if has(d, coordinate(set, band.is_bottom())) {
            self.push(Step::Feed(row));
        }
    }

    // "Its rows wait in the order HL, LH, HH (at level L: LL, HL, LH, HH)": LL is kept at level L only.
    fn push_set(&mut self, s: Shape, level: usize, set: usize) {
        if level == s.levels {
            self.push_band(s, level, Band::LL, set);
        }
        self.push_band(s, level, Band::HL, set);
        self.push_band(s, level, Band::LH, set);
        self.push_band(s, level, Band::HH, set);
    }

    // The row at a coordinate is complete of what stands below `done` levels: "Then its LL row goes to the next level, and all that this makes there comes before
    // anything else."
    fn push_row(&mut self, s: Shape, done: usize, row: usize) {
        let mut c = row;
        for k in done..s.levels {
            if !makes_set(c, area::bound(s.y as usize, k)) {
                return;
            }
            c = set_before(c);
            self.push_set(s, k + 1, c);
            if !has_low(s, k + 1, c) {
                return;
            }
        }
    }

    // "At the finish level 1 closes first, then level 2, and so on." What is left of a level: its last set, and what that one's low row makes.
    fn push_last(&mut self, s: Shape, level: usize) {
        let set = last_set(rows_of(s, level).to);
        self.push_set(s, level, set);
        if has_low(s, level, set) {
            self.push_row(s, level, set);
        }
    }

    // A level's first set, where it is a high row alone and the row needs another set of that level too.
    fn push_high(&mut self, s: Shape, level: usize, row: usize) {
        let d = rows_of(s, level);
        let c = row_at_level(s, row, level.saturating_sub(1));
        let first = d.from / 2;
        if c == d.from && first != set_with(c, d.to) {
            self.push_set(s, level, first);
        }
    }

    // The band rows that the row at a coordinate needs and no row before it: the high rows alone, the finest level first, each "before anything of the next
    // level"; then the others, the coarsest level first.
    fn push_wants(&mut self, s: Shape, row: usize) {
        let deepest = depth(s, row);
        for level in 1..=deepest {
            self.push_high(s, level, row);
        }
        for level in (1..=deepest).rev() {
            self.push_set(s, level, row_at_level(s, row, level));
        }
    }

    // All steps of a reader.
    pub fn of_reader(s: Shape) -> Steps {
        let mut steps = Steps::new();
        for r in 0..s.height {
            steps.push_wants(s, (s.y as usize).wrapping_add(r));
            steps.push(Step::Draw);
        }
        steps
    }
}

// The rows of a writer, and how many of them each number of complete height rows has made.
#[derive(Drop)]
pub struct Rows {
    steps: Steps,
    due: [usize; ROWS],
}

impl Rows {
    pub fn of_writer(s: Shape) -> Rows {
        let mut rows = Rows {
            steps: Steps::new(),
            due: [0; ROWS],
        };
        for r in 0..s.height {
            rows.steps.push_row(s, 0, (s.y as usize).wrapping_add(r));
            let made = rows.steps.count();
            area::write(&mut rows.due, r + 1, made);
        }
        for level in 1..=s.levels {
            rows.steps.push_last(s, level);
        }
        rows
    }

    pub fn count(&self) -> usize {
        self.steps.count()
    }

    pub fn at(&self, i: usize) -> Option<Row> {
        match self.steps.at(i) {
            Some(Step::Feed(row)) => Some(row),
            _ => None,
        }
    }

    // How many rows `rows` complete ones have made.
    pub fn due(&self, rows: usize) -> usize {
        if rows < ROWS {
            return self.due[rows];
        }
        0
    }
}
