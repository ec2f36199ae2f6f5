// Many rows at once: the band rows that a run of numbers has are fed, and height rows drawn, one after the other. Questions 1, 5 and 9 are asked once, and the
// level of a set is found once for all of its rows.
ghost use Rattle.std.specs.Prelude.{◌≡◌, true, false, is_none, ℕ, ◌+◌, ◌*◌, ◌<◌, ◌≤◌, ℤ, length};
ghost use Rattle.numbers.specs.Signal.{at};
ghost use Rattle.areas.specs.Areas.{heights_at};
ghost use Rattle.refusal.specs.Numbers.{number, answer};
ghost use Rattle.calls.specs.Lists.{seen};
ghost use Rattle.reader.specs.State.{needs, next};
ghost use Rattle.reader.specs.Questions.{counts_fit};
ghost use Rattle.reader.specs.Inside.{Due};
ghost use Rattle.reader.specs.Last as last;
ghost use Rattle.reader.specs.Runs.{begin, run_question, run_reply, progress, of_ran, left_by};
ghost use Rattle.reader.specs.RunSteps.{reader_at, Own, Formed, run_at, where_some, told, Turned, Over};

use crate::run_steps::Place;
use crate::walk::Next;
use crate::{Reader, last, limited, questions, run_steps, steps};
use areas::copies;
use refusal::Refusal;

// The numbers used and the height rows drawn.
#[derive(Clone, Copy)]
pub struct Tally {
    pub used: usize,
    pub rows: usize,
}

// A run on its way. Once it is over: whether the next call is turned away, and by which question.
#[derive(Clone, Copy)]
struct Turn {
    over: Option<Result<(), Refusal>>,
    done: Tally,
    place: Place,
}

// It ends here.
fn stays(no: Result<(), Refusal>, done: Tally, place: Place) -> Turn
    ensures { (is_none result.over ≡ false) × (told result.over ≡ answer no) × (result.done ≡ done) × (result.place ≡ place) }
{
    Turn {
        over: Some(no),
        done,
        place,
    }
}

// A question of a feed, where there are numbers.
fn where_some(why: Refusal, m: usize) -> Result<(), Refusal>
    ensures { answer result ≡ where_some (number why) m }
{
    if m == 0 { Ok(()) } else { Err(why) }
}

// It goes on from a place, with so many numbers used and rows drawn more, unless 14 ended the reader.
fn goes(done: Tally, used: usize, rows: usize, place: Place) -> Turn
    ensures { (is_none result.over ≡ true) × (result.place ≡ place) × (place.ended ≡ true → result.done ≡ done) ×
        (place.ended ≡ false → (result.done.used ≡ used) × (result.done.rows ≡ rows)) }
{
    if place.ended {
        return Turn {
            over: None,
            done,
            place,
        };
    }
    Turn {
        over: None,
        done: Tally { used, rows },
        place,
    }
}

// The band row wanted fed, if the run has it.
fn feed_turn(s: Reader, p: Place, n: Next, store: &mut [i32], run: &[i32], done: Tally) -> Turn
    requires { (counts_fit s ≡ true) × (needs s ≤ length store.old) × (s.ended ≡ false) × (s.drawn < s.height) × (reader_at s p ≡ s) × Own s p.at ×
        Due s n × (0 < n.spot.level) × (done.used ≤ length run.now) }
    ensures by_index { (k : ℕ) (z : ℕ → ℤ) → done.rows * s.width ≤ k →
        Turned (length store.old) (length run.now) (at run.now) k (run_at done s (at store.old) z)
        (run_at result.done (reader_at s result.place) (at store.new) z) (is_none result.over) (told result.over) }
    ensures own { Own (reader_at s result.place) result.place.at }
{
    let a = done.used;
    let length = steps::row_length(s, n);
    if length == 0 {
        return stays(Ok(()), done, p);
    }
    if run.len() - a < length {
        return stays(where_some(Refusal::WrongLength, run.len()), done, p);
    }
    let e = a + length;
    if !questions::run_fits(s.filter, &run[a..e], s.stop + n.spot.level) {
        return stays(where_some(Refusal::OutOfRange, run.len()), done, p);
    }
    let l = p.at;
    let q = run_steps::feed(s, l, store, n, &run[a..e]);
    goes(done, e, done.rows, q)
}

// A height row drawn, if there is room for it.
fn draw_turn(s: Reader, p: Place, store: &mut [i32], out: &mut [u16], done: Tally) -> Turn
    requires { (counts_fit s ≡ true) × (needs s ≤ length store.old) × (s.ended ≡ false) × (s.drawn < s.height) × (reader_at s p ≡ s) × Own s p.at ×
        (0 ≡ (next s).level) × (done.rows * s.width ≤ length out.old) }
    ensures by_index { (m : ℕ) (v : ℕ → ℤ) → done.used ≤ m →
        Turned (length store.old) m v (length out.old) (run_at done s (at store.old) (heights_at out.old))
        (run_at result.done (reader_at s result.place) (at store.new) (heights_at out.new)) (is_none result.over) (told result.over) }
    ensures own { Own (reader_at s result.place) result.place.at }
{
    let a = done.rows * s.width;
    if out.len() - a < s.width {
        return stays(Err(Refusal::OutShort), done, p);
    }
    let l = p.at;
    let q = run_steps::draw(s, l, store, &mut out[a..]);
    goes(done, done.used, done.rows + 1, q)
}

// The next call of a reader with levels to work out.
fn level_turn(
    s: Reader,
    p: Place,
    store: &mut [i32],
    run: &[i32],
    out: &mut [u16],
    done: Tally,
) -> Turn
    requires { (0 < s.levels) × Formed s × (needs s ≤ length store.old) × (reader_at s p ≡ s) × Own s p.at × (done.used ≤ length run.now) ×
        (done.rows * s.width ≤ length out.old) }
    ensures turned { Turned (length store.old) (length run.now) (at run.now) (length out.old)
        (run_at done s (at store.old) (heights_at out.old))
        (run_at result.done (reader_at s result.place) (at store.new) (heights_at out.new)) (is_none result.over) (told result.over) }
    ensures own { Own (reader_at s result.place) result.place.at }
{
    if s.ended {
        return stays(Err(Refusal::IsOver), done, p);
    }
    if !run_steps::place_fits(s) {
        return stays(Err(Refusal::BadState), done, p);
    }
    if s.height <= s.drawn {
        return stays(where_some(Refusal::NotItsTurn, run.len()), done, p);
    }
    let n = run_steps::next_from(s, p.at);
    if n.spot.level == 0 {
        return draw_turn(s, p, store, out, done);
    }
    feed_turn(s, p, n, store, run, done)
}

// The same with no level to work out: a row fed,
fn last_feed(s: Reader, p: Place, store: &mut [i32], run: &[i32], done: Tally) -> Turn
    requires { (s.levels ≡ 0) × (last.store_question s (length store.old) ≡ 0) × (s.drawn < s.height) × (s.band ≡ 0) × (reader_at s p ≡ s) ×
        Own s p.at × (done.used ≤ length run.now) }
    ensures by_index { (k : ℕ) (z : ℕ → ℤ) → done.rows * s.width ≤ k →
        Turned (length store.old) (length run.now) (at run.now) k (run_at done s (at store.old) z)
        (run_at result.done (reader_at s result.place) (at store.new) z) (is_none result.over) (told result.over) }
    ensures own { Own (reader_at s result.place) result.place.at }
{
    let a = done.used;
    if s.width == 0 {
        return stays(Ok(()), done, p);
    }
    if run.len() - a < s.width {
        return stays(where_some(Refusal::WrongLength, run.len()), done, p);
    }
    let e = a + s.width;
    if !questions::run_fits(s.filter, &run[a..e], s.stop) {
        return stays(where_some(Refusal::OutOfRange, run.len()), done, p);
    }
    let _ = copies::copy(&run[a..e], store);
    let l = p.at;
    goes(
        done,
        e,
        done.rows,
        run_steps::place_at(last::moved(s, s.drawn, 4), l),
    )
}

// or drawn.
fn last_draw(s: Reader, p: Place, store: &[i32], out: &mut [u16], done: Tally) -> Turn
    requires { (s.levels ≡ 0) × (last.store_question s (length store.now) ≡ 0) × (s.drawn < s.height) × (0 < s.band) × (reader_at s p ≡ s) ×
        Own s p.at × (done.rows * s.width ≤ length out.old) }
    ensures by_index { (m : ℕ) (v : ℕ → ℤ) → done.used ≤ m →
        Turned (length store.now) m v (length out.old) (run_at done s (at store.now) (heights_at out.old))
        (run_at result.done (reader_at s result.place) (at store.now) (heights_at out.new)) (is_none result.over) (told result.over) }
    ensures own { Own (reader_at s result.place) result.place.at }
{
    let w = s.width;
    if w == 0 {
        return stays(Ok(()), done, p);
    }
    let a = done.rows * w;
    if out.len() - a < w {
        return stays(Err(Refusal::OutShort), done, p);
    }
    limited::limit_row(&store[0..w], &mut out[a..]);
    let l = p.at;
    goes(
        done,
        done.used,
        done.rows + 1,
        run_steps::place_at(last::moved(s, s.drawn + 1, 0), l),
    )
}

fn last_turn(
    s: Reader,
    p: Place,
    store: &mut [i32],
    run: &[i32],
    out: &mut [u16],
    done: Tally,
) -> Turn
    requires { (s.levels ≡ 0) × (s.spare ≤ length store.old) × (reader_at s p ≡ s) × Own s p.at × (done.used ≤ length run.now) ×
        (done.rows * s.width ≤ length out.old) }
    ensures turned { Turned (length store.old) (length run.now) (at run.now) (length out.old)
        (run_at done s (at store.old) (heights_at out.old))
        (run_at result.done (reader_at s result.place) (at store.new) (heights_at out.new)) (is_none result.over) (told result.over) }
    ensures own { Own (reader_at s result.place) result.place.at }
{
    if let Err(why) = last::store_question(s, store.len()) {
        return stays(Err(why), done, p);
    }
    if s.height <= s.drawn {
        return stays(where_some(Refusal::NotItsTurn, run.len()), done, p);
    }
    if s.band == 0 {
        return last_feed(s, p, store, run, done);
    }
    last_draw(s, p, store, out, done)
}

// The next call.
fn one_turn(
    s: Reader,
    p: Place,
    store: &mut [i32],
    run: &[i32],
    out: &mut [u16],
    done: Tally,
) -> Turn
    requires { (0 < s.levels → Formed s × (needs s ≤ length store.old)) × (s.levels ≡ 0 → s.spare ≤ length store.old) × (reader_at s p ≡ s) ×
        Own s p.at × (done.used ≤ length run.now) × (done.rows * s.width ≤ length out.old) }
    ensures turned { Turned (length store.old) (length run.now) (at run.now) (length out.old)
        (run_at done s (at store.old) (heights_at out.old))
        (run_at result.done (reader_at s result.place) (at store.new) (heights_at out.new)) (is_none result.over) (told result.over) }
    ensures own { Own (reader_at s result.place) result.place.at }
{
    if s.levels == 0 {
        return last_turn(s, p, store, run, out, done);
    }
    level_turn(s, p, store, run, out, done)
}

// Until nothing more is to be done.
fn go(s: Reader, p: Place, store: &mut [i32], run: &[i32], out: &mut [u16]) -> Turn
    requires { (0 < s.levels → (counts_fit s ≡ true) × (needs s ≤ length store.old)) × (s.levels ≡ 0 → s.spare ≤ length store.old) ×
        (s.ended ≡ false) × (reader_at s p ≡ s) × Own s p.at }
    ensures { Over (length store.old) (length run.now) (at run.now) (length out.old)
        (begin s (at store.old) (heights_at out.old))
        (run_at result.done (reader_at s result.place) (at store.new) (heights_at out.new)) (told result.over) }
{
    let mut t = Turn {
        over: None,
        done: Tally { used: 0, rows: 0 },
        place: p,
    };
    // Stays: only the turns show how many there are, so a `for` has nothing to count.
    while t.over.is_none() {
        let q = t.place;
        let d = t.done;
        t = one_turn(run_steps::reader_at(s, q), q, store, run, out, d);
    }
    t
}

// Questions 1, 5 and 9.
fn run_question(s: Reader, n: usize) -> Result<(), Refusal>
    ensures { answer result ≡ run_question s n }
{
    if s.levels == 0 {
        return last::store_question(s, n);
    }
    if !questions::counts_fit(s) {
        return Err(Refusal::BadState);
    }
    questions::store_question(s, n)
}

// The question that turns a run away which made no call.
fn first_no(done: Tally, ended: bool, over: Option<Result<(), Refusal>>) -> Result<(), Refusal>
    ensures value { done.used ≡ 0 → done.rows ≡ 0 → ended ≡ false → answer result ≡ told over }
    ensures value_2 { (done.used + done.rows ≡ 0 → ended ≡ true) → answer result ≡ 0 }
    ensures rows_value { (answer result ≡ 0 → ⊥) → (done.used + done.rows ≡ 0) × (ended ≡ false) }
{
    if 0 < done.used {
        return Ok(());
    }
    if 0 < done.rows {
        return Ok(());
    }
    if ended {
        Ok(())
    } else {
        over.unwrap_or(Ok(()))
    }
}

// Band rows fed and height rows drawn, until the run has no whole row more, the next row has no room, all rows are drawn, or a question turns the next away.
pub fn run(
    s: Reader,
    store: &mut [i32],
    run: &[i32],
    out: &mut [u16],
) -> Result<(Tally, Reader), Refusal>
    ensures result_value { of_ran result ≡ seen progress (run_reply s (length store.old) (length run.now) (at run.now)
        (length out.old) (at store.old) (heights_at out.old)) }
    ensures store_after { at store.new ≡ left_by (λ p. p.world.store) (at store.old) (run_reply s (length store.old)
        (length run.now) (at run.now) (length out.old) (at store.old) (heights_at out.old)) }
    ensures out_after { heights_at out.new ≡ left_by (λ p. p.area) (heights_at out.old) (run_reply s (length store.old)
        (length run.now) (at run.now) (length out.old) (at store.old) (heights_at out.old)) }
{
    run_question(s, store.len())?;
    let t = go(s, run_steps::place_now(s), store, run, out);
    first_no(t.done, t.place.ended, t.over)?;
    Ok((t.done, run_steps::reader_at(s, t.place)))
}
