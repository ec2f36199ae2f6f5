// Many rows at once: heights taken and band rows put, one after the other, by the calls' own steps. Questions 1, 5 and 9 are asked once, and the level of a set
// is found once for all of its rows.
ghost use Rattle.std.specs.Prelude.{◌≡◌, true, false, ◌∷◌, ◌+◌, ◌-◌, ◌/◌, ◌^◌, ◌<◌, ◌≤◌, length, drop, leb, ltb, eqb};
ghost use Rattle.numbers.specs.Signal.{at, pick, both};
ghost use Rattle.lifting.specs.Halves.{fronted};
ghost use Rattle.level.specs.Level.{rest, join_at};
ghost use Rattle.refusal.specs.Numbers.{answer};
ghost use Rattle.writer.specs.FirstQuestions.{state_question};
ghost use Rattle.writer.specs.Steps.{Reached};
ghost use Rattle.calls.specs.Lists.{seen};
ghost use Rattle.writer.specs.Runs.{named, begin, run_question, idle, run_reply, progress, of_ran, left_by};
ghost use Rattle.writer.specs.RunSteps.{with_left, row_at, run_at, one_more, Ready, Draws, Turned, SetDrawn, Over};

use crate::draws::PlacedRow;
use crate::{Writer, copies, draws, offers, questions, run_steps};
use progress::levels::Level;
use progress::{counts, levels};
use refusal::Refusal;

// The heights taken, the rows put and the numbers that these have.
#[derive(Clone, Copy)]
pub struct Counts {
    pub taken: usize,
    pub rows: usize,
    pub numbers: usize,
}

// What a run did, and the writer then.
#[derive(Clone, Copy)]
pub struct Ran {
    pub done: Counts,
    pub writer: Writer,
}

// A run on its way, and whether it goes on.
// Stays: `on` beside them, since counts and writer hold in both cases: an enum would have the same fields twice.
#[derive(Clone, Copy)]
struct Turn {
    on: bool,
    done: Counts,
    writer: Writer,
}

// A set whose rows are being put: the bands of it that are left.
#[derive(Clone, Copy)]
struct Part {
    left: usize,
    done: Counts,
}

// The writer with that many bands left.
fn with_left(s: Writer, left: usize) -> Writer
    ensures { result ≡ with_left s left }
{
    Writer { left, ..s }
}

// A row's name at the front of an area.
fn put_name(names: &mut [u64], r: PlacedRow)
    requires { 4 ≤ length names.old }
    ensures { names.new ≡ r.level ∷ r.band ∷ r.row ∷ r.length ∷ drop 4 names.old }
{
    names[0] = r.level as u64;
    names[1] = r.band as u64;
    names[2] = r.row as u64;
    names[3] = r.length as u64;
}

// A row and its name after those that are put; false, and nothing changed, where there is no room for one of them.
fn put_row(r: PlacedRow, store: &[i32], out: &mut [i32], names: &mut [u64], done: Counts) -> bool
    requires { (r.start + r.length ≤ length store.now) × (done.numbers ≤ length out.old) }
    ensures value { result ≡ both (leb r.length (length out.old - done.numbers)) (ltb done.rows (length names.old / 4)) }
    ensures out_after { at out.new ≡
        pick result (join_at done.numbers (at out.old)
        (fronted r.length (rest r.start (at store.now)) (rest done.numbers (at out.old))))
        (at out.old) }
    ensures names_after { names.new ≡ pick result (named done.rows (row_at r) names.old) names.old }
    ensures rows_bound { result ≡ true → (done.rows + 1 < 2 ^ 64) × (done.numbers + r.length < 2 ^ 64) }
{
    let a = done.numbers;
    if out.len() - a < r.length {
        return false;
    }
    if names.len() / 4 <= done.rows {
        return false;
    }
    let b = 4 * done.rows;
    copies::hand_out(store, r.start, r.length, &mut out[a..]);
    put_name(&mut names[b..], r);
    true
}

// A row more, of so many numbers.
fn one_more(done: Counts, length: usize) -> Counts
    requires { (done.rows + 1 < 2 ^ 64) × (done.numbers + length < 2 ^ 64) }
    ensures { result ≡ one_more done length }
{
    Counts {
        taken: done.taken,
        rows: done.rows + 1,
        numbers: done.numbers + length,
    }
}

// The rows of a set after which another of its rows waits, until there is no room.
fn first_rows(
    s: Writer,
    q: Level,
    store: &[i32],
    out: &mut [i32],
    names: &mut [u64],
    done: Counts,
) -> Part
    requires { Ready (length store.now) (length out.old) (length names.old / 4) (run_at done s (at store.now) (at out.old) names.old)
        × (0 < s.level) × Reached s q }
    ensures { Draws (length store.now) (length out.old) (length names.old / 4)
        (run_at done s (at store.now) (at out.old) names.old)
        (run_at result.done (with_left s result.left) (at store.now) (at out.new) names.new) }
{
    let mut left = s.left;
    let mut d = done;
    let mut next = counts::next_band(q.width, q.x, q.rows, q.y, q.set, counts::minus(left, 1));
    // Stays: the next band is found by what the set has, and so is the end; a range would count bands that are passed over.
    while 0 < next {
        let spot = draws::waiting(with_left(s, left), q);
        if !put_row(spot, store, out, names, d) {
            return Part { left, done: d };
        }
        d = one_more(d, spot.length);
        left = next;
        next = counts::next_band(q.width, q.x, q.rows, q.y, q.set, counts::minus(left, 1));
    }
    Part { left, done: d }
}

// The rows of the set that is being handed out, and what the last of them leaves.
fn draw_set(s: Writer, store: &mut [i32], out: &mut [i32], names: &mut [u64], done: Counts) -> Turn
    requires { Ready (length store.old) (length out.old) (length names.old / 4) (run_at done s (at store.old) (at out.old) names.old)
        × (0 < s.level) }
    ensures { SetDrawn (length store.old) (length out.old) (length names.old / 4)
        (run_at done s (at store.old) (at out.old) names.old)
        (run_at result.done result.writer (at store.new) (at out.new) names.new) result.on }
{
    let q = levels::level_of(s.filter, s.width, s.x, s.y, s.closed, s.level, s.rows);
    let part = first_rows(s, q, store, out, names, done);
    let d = part.done;
    let t = with_left(s, part.left);
    let spot = draws::waiting(t, q);
    if !put_row(spot, store, out, names, d) {
        return Turn {
            on: false,
            done: d,
            writer: t,
        };
    }
    let next = run_steps::draw_and_move(t, q, store);
    Turn {
        on: true,
        done: one_more(d, spot.length),
        writer: next,
    }
}

// Heights up to the end of the row begun.
fn take_row(s: Writer, store: &mut [i32], heights: &[u16], done: Counts) -> Turn
    requires { (state_question s (length store.old) ≡ 0) × (s.level ≡ 0) × (0 < length heights.now → s.finished ≡ false)
        × (done.taken ≤ length heights.now) }
    ensures { (k m : _) (z : _) (l : _) → done.numbers ≤ k → done.rows ≤ m →
        Turned (length store.old) heights.now k m (run_at done s (at store.old) z l)
        (run_at result.done result.writer (at store.new) z l) result.on }
{
    let n = offers::next(s, heights.len() - done.taken);
    if n == 0 {
        return Turn {
            on: false,
            done,
            writer: s,
        };
    }
    let a = done.taken;
    let e = a + n;
    Turn {
        on: true,
        done: Counts {
            taken: e,
            rows: done.rows,
            numbers: done.numbers,
        },
        writer: run_steps::put_heights(s, store, &heights[a..e], 0, n),
    }
}

// The next of these.
fn one_turn(
    s: Writer,
    store: &mut [i32],
    heights: &[u16],
    out: &mut [i32],
    names: &mut [u64],
    done: Counts,
) -> Turn
    requires { Ready (length store.old) (length out.old) (length names.old / 4) (run_at done s (at store.old) (at out.old) names.old)
        × (0 < length heights.now → s.finished ≡ false) × (done.taken ≤ length heights.now) }
    ensures { Turned (length store.old) heights.now (length out.old) (length names.old / 4)
        (run_at done s (at store.old) (at out.old) names.old)
        (run_at result.done result.writer (at store.new) (at out.new) names.new) result.on }
{
    if s.level == 0 {
        return take_row(s, store, heights, done);
    }
    draw_set(s, store, out, names, done)
}

// Until nothing more is to be done.
fn go(s: Writer, store: &mut [i32], heights: &[u16], out: &mut [i32], names: &mut [u64]) -> Turn
    requires { run_question s (length store.old) (length heights.now) ≡ 0 }
    ensures { Over (length store.old) heights.now (length out.old) (length names.old / 4)
        (begin s (at store.old) (at out.old) names.old)
        (run_at result.done result.writer (at store.new) (at out.new) names.new) }
{
    let mut t = Turn {
        on: true,
        done: Counts {
            taken: 0,
            rows: 0,
            numbers: 0,
        },
        writer: s,
    };
    // Stays: a turn itself says whether another follows; no count or iterator is known before.
    while t.on {
        t = one_turn(t.writer, store, heights, out, names, t.done);
    }
    t
}

// Questions 1, 5 and 9, the last where there are heights.
fn run_question(s: Writer, n: usize, k: usize) -> Result<(), Refusal>
    ensures { answer result ≡ run_question s n k }
{
    let fits = questions::in_ranges(s);
    questions::state_question(s, fits, n)?;
    if 0 < k && s.finished {
        return Err(Refusal::IsOver);
    }
    Ok(())
}

// No height is taken and no row is put.
fn nothing_done(done: Counts) -> bool
    ensures { result ≡ eqb (done.taken + done.rows) 0 }
{
    done.taken == 0 && done.rows == 0
}

// Where nothing was done: 12 where a row waits, 10 where there are heights.
fn idle(level: usize, k: usize) -> Result<(), Refusal>
    ensures { answer result ≡ idle level k }
{
    if 0 < level {
        return Err(Refusal::OutShort);
    }
    if 0 < k {
        return Err(Refusal::RowsFull);
    }
    Ok(())
}

// Heights taken and band rows put, with their names, until the heights are used up, no row more can come or the next row has no room.
pub fn run(
    s: Writer,
    store: &mut [i32],
    heights: &[u16],
    out: &mut [i32],
    names: &mut [u64],
) -> Result<Ran, Refusal>
    ensures result_value { of_ran result ≡ seen progress (run_reply s (length store.old) heights.now (length out.old)
        (at store.old) (at out.old) names.old) }
    ensures store_after { at store.new ≡ left_by (λ p. p.world.store) (at store.old) (run_reply s (length store.old)
        heights.now (length out.old) (at store.old) (at out.old) names.old) }
    ensures out_after { at out.new ≡ left_by (λ p. p.area) (at out.old) (run_reply s (length store.old)
        heights.now (length out.old) (at store.old) (at out.old) names.old) }
    ensures names_after { names.new ≡ left_by (λ p. p.names) names.old (run_reply s (length store.old)
        heights.now (length out.old) (at store.old) (at out.old) names.old) }
{
    run_question(s, store.len(), heights.len())?;
    let t = go(s, store, heights, out, names);
    if nothing_done(t.done) {
        idle(s.level, heights.len())?;
    }
    Ok(Ran {
        done: t.done,
        writer: t.writer,
    })
}
