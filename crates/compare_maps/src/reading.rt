// The reader, fed with rows of the second plane, against the map and the steps of document 01.
use reader::{ReadError, Reader, Wanted};
use reference::area::Lent;
use reference::order::{Row, Step, Steps};
use reference::t800::Book;
use reference::tally::Tally;
use reference::{area, heights};
use std::ops::ControlFlow;
use wavelet::shape::Shape;

const TURNS: usize = 100000;

// A map, its plane and the second one, and the steps of its reader.
#[derive(Clone, Copy)]
struct Ground<'a> {
    map: &'a [u16],
    plane: &'a [i32],
    second: &'a [u64],
    steps: &'a Steps,
}

// A reader, what document 01 says of it by the calls so far, and what differed.
#[derive(Clone, Copy)]
struct Turn {
    reader: Reader,
    shape: Shape,
    steps: usize,
    drawn: usize,
    seed: u64,
    numbers: u64,
    differences: u64,
}

// The next turn, or the last one.
type Went = ControlFlow<Turn, Turn>;

impl Turn {
    fn found(self, differences: u64) -> Turn {
        Turn {
            differences: area::sum(self.differences, differences),
            ..self
        }
    }

    // An answer that cannot be gone on from.
    fn stopped(self) -> Went {
        ControlFlow::Break(self.found(1))
    }

    fn sown(self) -> Turn {
        Turn {
            seed: heights::next(self.seed),
            ..self
        }
    }

    // One step on.
    fn moved(self, reader: Reader, numbers: usize) -> Turn {
        Turn {
            reader,
            steps: self.steps.wrapping_add(1),
            numbers: area::sum(self.numbers, numbers as u64),
            ..self
        }
    }

    // A height row was drawn.
    fn drew(self, reader: Reader, numbers: usize, differences: u64) -> Turn {
        let t = self.moved(reader, numbers);
        Turn {
            drawn: t.drawn.wrapping_add(1),
            ..t.found(differences)
        }
    }
}

// A call's answer as a number: 0 where it passed, 14, or the question that refused it.
pub fn code_of(answer: Result<Reader, ReadError>) -> u8 {
    match answer {
        Ok(_) => 0,
        Err(ReadError::Impossible(_)) => 14,
        Err(ReadError::Refused(why)) => why.number(),
    }
}

fn feed_refused(r: Reader, store: &mut [i32], run: &[i32], no: u8) -> u64 {
    area::differ(code_of(r.feed(store, run)), no)
}

// A draw into marks that is refused by 12, with the area untouched.
fn draw_short(r: Reader, store: &mut [i32], out: &mut [u16]) -> u64 {
    out.fill(u16::MARK);
    let a = match r.draw(store, out) {
        Err(ReadError::Refused(why)) => area::differ(why.number(), 12),
        _ => 1,
    };
    area::sum(a, area::unmarked(out, 0))
}

// A draw into marks when there is nothing to be drawn, with the area untouched.
fn draw_nothing(r: Reader, store: &mut [i32], out: &mut [u16]) -> u64 {
    if out.len() < 4 {
        return 1;
    }
    let few = &mut out[0..4];
    few.fill(u16::MARK);
    let a = match r.draw(store, few) {
        Ok(None) => 0,
        _ => 1,
    };
    area::sum(a, area::unmarked(few, 0))
}

// A band row is wanted: a draw gives nothing, a run of another length is refused by 13. The view of the row in the plane is held against the second plane, and
// fed.
fn feed_step(t: Turn, g: Ground, row: Row, store: &mut [i32], out: &mut [u16]) -> Went {
    let a = draw_nothing(t.reader, store, out);
    let b = feed_refused(t.reader, store, g.plane, 13);
    let run = row.view(g.plane, t.shape);
    let length = row.length(t.shape);
    let c = area::differ(run.len(), length);
    let d = area::differences(run, length, g.second, row.start(t.shape));
    let u = t.found(area::sum(area::sum(a, b), area::sum(c, d)));
    match u.reader.feed(store, run) {
        Ok(reader) => ControlFlow::Continue(u.moved(reader, run.len())),
        Err(_) => u.stopped(),
    }
}

// A height row that was drawn: its length and heights, and no number after them.
fn row_differences(t: Turn, n: usize, map: &[u16], out: &[u16]) -> u64 {
    let width = t.shape.width;
    let a = area::differ(n, width);
    let b = area::differences(out, width, map, area::cell(width, t.drawn, 0));
    let c = area::unmarked(out, width);
    area::sum(a, area::sum(b, c))
}

fn draw_marked(t: Turn, map: &[u16], store: &mut [i32], out: &mut [u16]) -> Went {
    out.fill(u16::MARK);
    match t.reader.draw(store, out) {
        Ok(Some((n, reader))) => {
            let differences = row_differences(t, n, map, out);
            ControlFlow::Continue(t.drew(reader, n, differences))
        }
        _ => t.stopped(),
    }
}

// A draw into an area of any length up to two rows: one that is too short is refused by 12.
fn draw_room(t: Turn, map: &[u16], store: &mut [i32], out: &mut [u16]) -> Went {
    let room = heights::up_to(t.seed, t.shape.width, 2);
    if out.len() < room {
        return t.stopped();
    }
    if room < t.shape.width {
        let a = draw_short(t.reader, store, &mut out[0..room]);
        return ControlFlow::Continue(t.found(a));
    }
    draw_marked(t, map, store, &mut out[0..room])
}

// A height row can be drawn: a feed is refused by 8.
fn draw_step(t: Turn, g: Ground, store: &mut [i32], out: &mut [u16]) -> Went {
    let a = feed_refused(t.reader, store, g.plane, 8);
    draw_room(t.found(a), g.map, store, out)
}

// All rows are drawn: a draw gives nothing, a feed is refused by 8.
fn last_step(t: Turn, g: Ground, store: &mut [i32], out: &mut [u16]) -> Went {
    let a = draw_nothing(t.reader, store, out);
    let b = feed_refused(t.reader, store, g.plane, 8);
    ControlFlow::Break(t.found(area::sum(a, b)))
}

// What the reader wants is the next step of the list, and is done.
fn step(t: Turn, g: Ground, store: &mut [i32], out: &mut [u16]) -> Went {
    match (t.reader.want(), g.steps.at(t.steps)) {
        (
            Ok(
                Wanted::Row {
                    level,
                    band,
                    row,
                    length,
                },
            ),
            Some(Step::Feed(next)),
        ) => {
            let a = next.differ(level, band, row);
            let b = area::differ(length, next.length(t.shape));
            feed_step(t.found(area::sum(a, b)), g, next, store, out)
        }
        (Ok(Wanted::Draw), Some(Step::Draw)) => draw_step(t, g, store, out),
        (Ok(Wanted::Done), None) => last_step(t, g, store, out),
        _ => t.stopped(),
    }
}

// All turns of one reader.
fn turns(start: Turn, g: Ground, store: &mut [i32], out: &mut [u16]) -> Turn {
    let mut t = start;
    for _ in 0..TURNS {
        match step(t.sown(), g, store, out) {
            ControlFlow::Continue(next) => t = next,
            ControlFlow::Break(end) => return end,
        }
    }
    t.found(1)
}

// Every coefficient was fed, and every height drawn.
fn tallied(t: Tally, s: Shape, end: Turn) -> Tally {
    let n = heights::count(s) as u64;
    let a = area::differ(end.drawn, s.height);
    let b = area::differ(end.numbers, area::sum(n, n));
    t.more(end.numbers, area::sum(end.differences, area::sum(a, b)))
}

fn read(t: Tally, s: Shape, i: usize, g: Ground, store: &mut [i32]) -> Tally {
    match Reader::set_up(s, store) {
        Ok(reader) => {
            let start = Turn {
                reader,
                shape: s,
                steps: 0,
                drawn: 0,
                seed: heights::next(area::sum(i as u64, 1000)),
                numbers: 0,
                differences: 0,
            };
            let mut out = [0u16; area::PLANE];
            tallied(t, s, turns(start, g, store, &mut out))
        }
        Err(_) => t.failed(),
    }
}

// Map number i: the rows that are fed are those of the whole map's plane. The line store has no number more than it needs, and begins with marks in it.
fn one_map(t: Tally, i: usize) -> Tally {
    let s = heights::shape_at(i);
    let m = heights::store_length(s);
    if 16400 < m {
        return t.failed();
    }
    let mut map = [0u16; area::PLANE];
    let mut book = Book::new();
    let mut plane = [0i32; area::PLANE];
    let mut work = [0i32; area::PLANE];
    book.prepare(i, &mut map);
    if whole_map::forward(&map, s, &mut plane, &mut work).is_err() {
        return t.failed();
    }
    let steps = Steps::of_reader(s);
    let g = Ground {
        map: &map,
        plane: &plane,
        second: &book.plane,
        steps: &steps,
    };
    let mut store = [i32::MARK; 16400];
    read(t, s, i, g, &mut store[0..m])
}

// All maps.
pub fn run() -> Tally {
    let mut t = Tally::default();
    for i in 0..heights::MAPS {
        t = one_map(t, i);
    }
    t
}
