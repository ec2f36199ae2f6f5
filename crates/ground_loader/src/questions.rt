// The questions of a loader's calls. The module is private, as `widths` is.
ghost use Rattle.std.specs.Prelude.{◌≡◌, true, ◌≤◌, leb, ltb, eqb};
ghost use Rattle.numbers.specs.Signal.{pick, both};
ghost use Rattle.refusal.specs.Numbers.{answer};
ghost use Rattle.reader.specs.Answers.{of_wanted};
ghost use Rattle.reader.specs.Reading.{counts_fit};
ghost use Rattle.reader.specs.State.{needs};
ghost use Rattle.reader.specs.Questions.{store_fits};
ghost use Rattle.ground_loader.specs.Loader.{want_in, second_fits, part_fits, standing, is_none, coming_after, loader_fits, take_question, row_needs};

use crate::loader::Loader;
use crate::rows::Coming;
use crate::{steps, sums};
use ground_file::widths::width_of;
use reader::{Reader, Wanted};
use refusal::Refusal;
use wavelet::limits;

// The steps that are loaded.
const MOST_STEP: usize = 1;

// Has the second part of a group numbers, where it has a width?
fn second_fits(c: Coming, n: usize) -> bool
    requires { c.left ≤ n }
    ensures { result ≡ second_fits n c }
{
    if c.phase != 1 {
        return true;
    }
    if c.next == 0 {
        return true;
    }
    c.done < n - c.left
}

// Before a byte of a part, of a row of n numbers: its numbers in their ranges?
fn part_fits(c: Coming, n: usize) -> bool
    ensures { result ≡ part_fits n c }
{
    if n < c.left {
        return false;
    }
    let w = width_of(c.code);
    if w <= c.bits {
        return false;
    }
    let placed = c.done <= n - c.left;
    let low = (c.low >> c.bits) == 0;
    let most = (c.most >> w) == 0;
    limits::is_within(c.code, 15)
        & ((c.next <= 15)
            & ((0 < c.left)
                & (placed
                    & ((c.bits < w) & (low & (most & ((c.phase <= 2) & second_fits(c, n))))))))
}

// Before a byte of a row of n numbers.
fn stands(c: Coming, n: usize) -> bool
    ensures { result ≡ standing n c }
{
    if c.phase == 0 {
        return c.done < n;
    }
    part_fits(c, n)
}

// Has nothing come of a row?
fn is_none(c: Coming) -> bool
    ensures { result ≡ is_none c }
{
    (c.phase == 0)
        & ((c.done == 0)
            & ((c.code == 0)
                & ((c.next == 0)
                    & ((c.left == 0) & ((c.low == 0) & ((c.bits == 0) & (c.most == 0)))))))
}

// Of a row that is wanted, or of none.
fn coming_for(c: Coming, want: Result<Wanted, Refusal>) -> bool
    ensures { result ≡ coming_after c (want_in (of_wanted want)) }
{
    match want {
        Ok(Wanted::Row { length, .. }) => stands(c, length),
        Ok(Wanted::Draw) => is_none(c),
        Ok(Wanted::Done) => is_none(c),
        Ok(Wanted::Ended) => is_none(c),
        Err(_) => is_none(c),
    }
}

fn coming_fits(c: Coming, header: usize, want: Result<Wanted, Refusal>) -> bool
    ensures { result ≡ pick (ltb header 24) (is_none c) (coming_after c (want_in (of_wanted want))) }
{
    if header < 24 {
        return is_none(c);
    }
    coming_for(c, want)
}

fn admission_of(step: usize) -> usize
    ensures { result ≡ pick (eqb step 1) 0 1 }
{
    if step == 1 { 0 } else { 1 }
}

// Question 1.
pub fn counts_fit(l: Loader) -> bool
    ensures { result ≡ loader_fits l }
{
    let s = l.reader;
    let want = s.want();
    let here = s.admission == admission_of(l.step);
    want.is_ok()
        & ((s.stop == 0)
            & ((s.spare == 0)
                & (limits::is_within(l.step, MOST_STEP)
                    & (here
                        & ((l.header <= 24)
                            & ((l.tail <= 4)
                                & ((l.sum < sums::PRIME)
                                    & coming_fits(l.coming, l.header, want))))))))
}

// Question 5, of a line store of n numbers and a row area of m.
fn areas_fit(s: Reader, n: usize, m: usize) -> bool
    requires { (counts_fit s ≡ true) × (s.stop ≡ 0) × (s.spare ≡ 0) }
    ensures { result ≡ both (store_fits (needs s) n) (leb (row_needs s) m) }
{
    let store = filters::store_length(s.filter, s.width, s.x, s.levels);
    (store <= n) & ((s.width + 1) / 2 <= m)
}

// Questions 1, 5, 9 and 8 of a taking call.
pub fn take_question(l: Loader, n: usize, m: usize) -> Result<(), Refusal>
    ensures { answer result ≡ take_question l n m }
{
    if !counts_fit(l) {
        return Err(Refusal::BadState);
    }
    let s = l.reader;
    if !areas_fit(s, n, m) {
        return Err(Refusal::AreaShort);
    }
    if s.ended {
        return Err(Refusal::IsOver);
    }
    if 3 <= steps::due_of(l).phase {
        return Err(Refusal::NotItsTurn);
    }
    Ok(())
}
