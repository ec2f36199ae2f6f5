// The writer, its input cut in several ways, against the second arithmetic and the order of document 01.
use reference::area::Lent;
use reference::order::{Row, Rows};
use reference::t800::Book;
use reference::tally::Tally;
use reference::{area, heights};
use refusal::Refusal;
use std::ops::ControlFlow;
use wavelet::shape::Shape;
use writer::{BandRow, Writer};

const TURNS: usize = 100000;

// Ways to cut: how many heights each run has. Some are any number up to three rows.
#[derive(Clone, Copy)]
enum Cut {
    One,
    Two,
    Three,
    Seven,
    OneRow,
    Some,
    All,
}

const CUTS: [Cut; 7] = [
    Cut::One,
    Cut::Two,
    Cut::Three,
    Cut::Seven,
    Cut::OneRow,
    Cut::Some,
    Cut::All,
];

impl Cut {
    fn number(self) -> u64 {
        self as u64
    }

    // How many heights the next run has, if so many are left.
    fn run_length(self, width: usize, seed: u64) -> usize {
        match self {
            Cut::One => 1,
            Cut::Two => 2,
            Cut::Three => 3,
            Cut::Seven => 7,
            Cut::OneRow => width,
            Cut::Some => heights::up_to(seed, width, 3),
            Cut::All => area::FAR,
        }
    }
}

// A map, its second plane, and the rows of its writer.
#[derive(Clone, Copy)]
struct Ground<'a> {
    map: &'a [u16],
    second: &'a [u64],
    rows: &'a Rows,
}

// A writer, what document 01 says of it by the calls so far, and what differed.
#[derive(Clone, Copy)]
struct Turn {
    writer: Writer,
    shape: Shape,
    cut: Cut,
    taken: usize,
    drawn: usize,
    finished: bool,
    seed: u64,
    numbers: u64,
    differences: u64,
}

// The next turn, or the last one.
type Went = ControlFlow<Turn, Turn>;

impl Turn {
    fn found(self, differences: u64) -> Turn {
        Turn {
            differences: area::sum(self.differences, differences),
            ..self
        }
    }

    // An answer that cannot be gone on from.
    fn stopped(self) -> Went {
        ControlFlow::Break(self.found(1))
    }

    // A row was drawn.
    fn drew(self, writer: Writer, numbers: usize, differences: u64) -> Turn {
        let t = self.found(differences);
        Turn {
            writer,
            drawn: t.drawn.wrapping_add(1),
            numbers: area::sum(t.numbers, numbers as u64),
            ..t
        }
    }

    // Heights were taken.
    fn took(self, writer: Writer, heights: usize, differences: u64) -> Turn {
        let t = self.found(differences);
        Turn {
            writer,
            taken: t.taken.wrapping_add(heights),
            seed: heights::next(t.seed),
            ..t
        }
    }

    // How many rows must be made by now.
    fn due(self, g: Ground) -> usize {
        if self.finished {
            return g.rows.count();
        }
        due_at(g, self.taken, self.shape.width)
    }

    // Is a finish refused now? There is no row yet, or one is begun.
    fn is_begun(self) -> bool {
        let width = self.shape.width;
        if self.taken == 0 || width == 0 {
            return true;
        }
        0 < self.taken % width
    }
}

// How many rows are made of `taken` heights, before the finish.
fn due_at(g: Ground, taken: usize, width: usize) -> usize {
    if width == 0 {
        return 0;
    }
    g.rows.due(taken / width)
}

// "An offer takes heights until a band row waits .. or the run is used up."
fn expected_take(t: Turn, g: Ground, run: usize) -> usize {
    for k in 0..run {
        if t.drawn < due_at(g, t.taken.wrapping_add(k), t.shape.width) {
            return k;
        }
    }
    run
}

// 1 where a call was not turned away by this question.
fn passes<T: Drop>(answer: Result<T, Refusal>, no: u8) -> u64 {
    match answer {
        Ok(_) => 1,
        Err(why) => area::differ(why.number(), no),
    }
}

fn offer_refused(w: Writer, store: &mut [i32], run: &[u16], no: u8) -> u64 {
    passes(w.offer(store, run), no)
}

fn finish_refused(w: Writer, store: &mut [i32], no: u8) -> u64 {
    passes(w.finish(store), no)
}

// A draw when no row waits, with the area untouched.
fn draw_nothing(w: Writer, store: &mut [i32], out: &mut [i32]) -> u64 {
    out.fill(i32::MARK);
    let a = match w.draw(store, out) {
        Ok(None) => 0,
        _ => 1,
    };
    area::sum(a, area::unmarked(out, 0))
}

// A row that was drawn: its level, band, number, length and values, and no number after them.
fn row_differences(row: BandRow, s: Shape, g: Ground, due: Row, out: &[i32]) -> u64 {
    let length = due.length(s);
    let a = due.differ(row.level, row.band, row.row);
    let b = area::differ(row.length, length);
    let c = area::differences(out, length, g.second, due.start(s));
    let d = area::unmarked(out, length);
    area::sum(area::sum(a, b), area::sum(c, d))
}

// A row waits: a finish is refused by 8; after the finish, offer and finish by 9.
fn wait_refused(t: Turn, g: Ground, store: &mut [i32]) -> u64 {
    if t.finished {
        let a = offer_refused(t.writer, store, g.map, 9);
        let b = finish_refused(t.writer, store, 9);
        return area::sum(a, b);
    }
    finish_refused(t.writer, store, 8)
}

// A draw without room for all of a row of `length` is refused by 12.
fn draw_short(t: Turn, length: usize, store: &mut [i32], out: &mut [i32]) -> u64 {
    if length == 0 {
        return 1;
    }
    let short = length - 1;
    if out.len() < short {
        return 1;
    }
    passes(t.writer.draw(store, &mut out[0..short]), 12)
}

fn draw_marked(t: Turn, g: Ground, due: Row, store: &mut [i32], out: &mut [i32]) -> Went {
    out.fill(i32::MARK);
    match t.writer.draw(store, out) {
        Ok(Some(drawn)) => {
            let differences = row_differences(drawn.row, t.shape, g, due, out);
            ControlFlow::Continue(t.drew(drawn.writer, drawn.row.length, differences))
        }
        _ => t.stopped(),
    }
}

// A row waits, and is drawn, with room for two numbers more.
fn draw_step(t: Turn, g: Ground, due: Row, store: &mut [i32], out: &mut [i32]) -> Went {
    let length = due.length(t.shape);
    let a = wait_refused(t, g, store);
    let b = draw_short(t, length, store, out);
    let u = t.found(area::sum(a, b));
    let room = length.wrapping_add(2);
    if out.len() < room {
        return u.stopped();
    }
    draw_marked(u, g, due, store, &mut out[0..room])
}

// The next run, cut out of the heights that are left.
fn offer_cut(t: Turn, g: Ground, store: &mut [i32]) -> Went {
    let from = t.taken;
    if g.map.len() < from {
        return t.stopped();
    }
    let n = t
        .cut
        .run_length(t.shape.width, t.seed)
        .min(g.map.len() - from);
    let expected = expected_take(t, g, n);
    match t.writer.offer(store, &g.map[from..from + n]) {
        Ok(taken) => {
            let differences = area::differ(taken.heights, expected);
            ControlFlow::Continue(t.took(taken.writer, expected, differences))
        }
        Err(_) => t.stopped(),
    }
}

// A finish in the middle of a row is refused by 11.
fn early_finish(t: Turn, store: &mut [i32]) -> u64 {
    if t.is_begun() {
        return finish_refused(t.writer, store, 11);
    }
    0
}

// No row waits and heights are left: a draw gives nothing; a run is offered.
fn offer_step(t: Turn, g: Ground, store: &mut [i32], out: &mut [i32]) -> Went {
    if out.len() < 4 {
        return t.stopped();
    }
    let a = draw_nothing(t.writer, store, &mut out[0..4]);
    let b = early_finish(t, store);
    offer_cut(t.found(area::sum(a, b)), g, store)
}

// All heights are taken and no row waits: the finish.
fn finish_step(t: Turn, store: &mut [i32]) -> Went {
    match t.writer.finish(store) {
        Ok(writer) => ControlFlow::Continue(Turn {
            writer,
            finished: true,
            ..t
        }),
        Err(_) => t.stopped(),
    }
}

// All rows are drawn: there is nothing to draw, and offer and finish are refused by 9.
fn last_step(t: Turn, g: Ground, store: &mut [i32], out: &mut [i32]) -> Went {
    let a = draw_nothing(t.writer, store, out);
    let b = offer_refused(t.writer, store, g.map, 9);
    let c = finish_refused(t.writer, store, 9);
    ControlFlow::Break(t.found(area::sum(a, area::sum(b, c))))
}

fn step(t: Turn, g: Ground, store: &mut [i32], out: &mut [i32]) -> Went {
    if t.drawn < t.due(g) {
        return match g.rows.at(t.drawn) {
            Some(due) => draw_step(t, g, due, store, out),
            None => t.stopped(),
        };
    }
    if t.finished {
        return last_step(t, g, store, out);
    }
    if t.taken < g.map.len() {
        return offer_step(t, g, store, out);
    }
    finish_step(t, store)
}

// All turns of one writer.
fn turns(start: Turn, g: Ground, store: &mut [i32], out: &mut [i32]) -> Turn {
    let mut t = start;
    for _ in 0..TURNS {
        match step(t, g, store, out) {
            ControlFlow::Continue(next) => t = next,
            ControlFlow::Break(end) => return end,
        }
    }
    t.found(1)
}

// The map cut in one way.
fn write(t: Tally, s: Shape, cut: Cut, g: Ground, store: &mut [i32], out: &mut [i32]) -> Tally {
    match Writer::set_up(s, store) {
        Ok(writer) => {
            let start = Turn {
                writer,
                shape: s,
                cut,
                taken: 0,
                drawn: 0,
                finished: false,
                seed: heights::next(area::sum(cut.number(), 1000)),
                numbers: 0,
                differences: 0,
            };
            let end = turns(start, g, store, out);
            let a = area::differ(end.numbers, g.map.len() as u64);
            t.more(end.numbers, area::sum(end.differences, a))
        }
        Err(_) => t.failed(),
    }
}

// Map number i, cut in all ways; the line store has no number more than it needs, and begins with marks in it.
fn one_map(start: Tally, i: usize) -> Tally {
    let s = heights::shape_at(i);
    let n = heights::count(s);
    let m = heights::store_length(s).wrapping_add(s.width);
    if area::PLANE < n || 18000 < m {
        return start.failed();
    }
    let mut map = [0u16; area::PLANE];
    let mut book = Book::new();
    let mut store = [i32::MARK; 18000];
    let mut out = [0i32; area::PLANE];
    book.prepare(i, &mut map);
    let rows = Rows::of_writer(s);
    let g = Ground {
        map: &map[0..n],
        second: &book.plane,
        rows: &rows,
    };
    let mut t = start;
    for cut in CUTS {
        t = write(t, s, cut, g, &mut store[0..m], &mut out);
    }
    t
}

// All maps.
pub fn run() -> Tally {
    let mut t = Tally::default();
    for i in 0..heights::MAPS {
        t = one_map(t, i);
    }
    t
}
