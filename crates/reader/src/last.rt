// A reader with no level to work out: it stops at the last level, or the low-low part that it reads is empty. Each row fed stands at the front of the line
// store
// and is the next to draw. Document 02, Q-6: "at j = L each fed row is the next to draw." The module is private: `lib` has the calls.
ghost use Rattle.std.specs.Prelude.{◌≡◌, ◌≤◌, length};
ghost use Rattle.filters.specs.Filters.{filter_of};
ghost use Rattle.numbers.specs.Signal.{at};
ghost use Rattle.areas.specs.Areas.{heights_at};
ghost use Rattle.refusal.specs.Numbers.{answer};
ghost use Rattle.reader.specs.Answers.{of_wanted, of_fed, of_drawn};
ghost use Rattle.reader.specs.Last as last;
ghost use Rattle.reader.specs.Last.{counts_fit, store_question, row_question};

use crate::{ReadError, Reader, Wanted, limited, questions};
use areas::copies;
use refusal::Refusal;
use wavelet::limits;

// Question 1. Without a level nothing is rebuilt, so no such reader is tolerant.
fn counts_fit(s: Reader) -> bool
    ensures { result ≡ counts_fit s }
{
    if !filters::is_filter(s.filter) {
        return false;
    }
    if !limits::is_within(s.stop, Reader::most_levels(s.filter)) {
        return false;
    }
    if Reader::MAX_WIDTH < s.width {
        return false;
    }
    if Reader::MAX_HEIGHT < s.height {
        return false;
    }
    if Reader::MAX_ORIGIN < s.x {
        return false;
    }
    if Reader::MAX_ORIGIN < s.y {
        return false;
    }
    if s.height < s.drawn {
        return false;
    }
    if s.level != 0 {
        return false;
    }
    if 4 < s.band {
        return false;
    }
    if s.back != 0 {
        return false;
    }
    if s.spare < s.width {
        return false;
    }
    if Reader::MAX_SPARE < s.spare {
        return false;
    }
    s.admission == 0
}

// Questions 1, 5 and 9.
pub fn store_question(s: Reader, length: usize) -> Result<(), Refusal>
    ensures { answer result ≡ store_question s length }
{
    if !counts_fit(s) {
        return Err(Refusal::BadState);
    }
    if length < s.spare {
        return Err(Refusal::AreaShort);
    }
    if s.ended {
        return Err(Refusal::IsOver);
    }
    Ok(())
}

// Questions 8, 13 and 7.
fn row_question(s: Reader, run: &[i32]) -> Result<(), Refusal>
    requires { s.stop ≤ (filter_of s.filter).levels }
    ensures { answer result ≡ row_question s (length run.now) (at run.now) }
{
    if s.height <= s.drawn {
        return Err(Refusal::NotItsTurn);
    }
    if s.band != 0 {
        return Err(Refusal::NotItsTurn);
    }
    if run.len() != s.width {
        return Err(Refusal::WrongLength);
    }
    if !questions::run_fits(s.filter, run, s.stop) {
        return Err(Refusal::OutOfRange);
    }
    Ok(())
}

// The reader at another row.
pub fn moved(s: Reader, drawn: usize, band: usize) -> Reader
    ensures { result ≡ last.moved_to s drawn band }
{
    Reader {
        drawn,
        level: 0,
        back: 0,
        band,
        ended: false,
        ..s
    }
}

pub fn want(s: Reader) -> Result<Wanted, Refusal>
    ensures { of_wanted result ≡ last.want_reply s (last.want_question s) }
{
    if !counts_fit(s) {
        return Err(Refusal::BadState);
    }
    if s.ended {
        return Ok(Wanted::Ended);
    }
    if s.height <= s.drawn {
        return Ok(Wanted::Done);
    }
    if s.band != 0 {
        return Ok(Wanted::Draw);
    }
    Ok(Wanted::Row {
        level: s.stop,
        band: 0,
        row: s.drawn,
        length: s.width,
    })
}

pub fn feed(s: Reader, store: &mut [i32], run: &[i32]) -> Result<Reader, ReadError>
    ensures result_value { of_fed result ≡ last.feed_reply s (last.feed_question s (length store.old) (length run.now) (at run.now)) }
    ensures store_after { at store.new ≡
        last.feed_store s (last.feed_question s (length store.old) (length run.now) (at run.now))
        (at run.now) (at store.old) }
{
    store_question(s, store.len())?;
    row_question(s, run)?;
    let _ = copies::copy(run, store);
    Ok(moved(s, s.drawn, 4))
}

pub fn draw(s: Reader, store: &[i32], out: &mut [u16]) -> Result<Option<(usize, Reader)>, ReadError>
    ensures result_value { of_drawn result ≡ last.draw_reply s (last.draw_question s (length store.now) (length out.old)) }
    ensures out_after { heights_at out.new ≡
        last.draw_area s (last.draw_question s (length store.now) (length out.old)) (at store.now)
        (heights_at out.old) }
{
    store_question(s, store.len())?;
    if s.height <= s.drawn {
        return Ok(None);
    }
    if s.band == 0 {
        return Ok(None);
    }
    if out.len() < s.width {
        return Err(ReadError::Refused(Refusal::OutShort));
    }
    let w = s.width;
    limited::limit_row(&store[0..w], out);
    Ok(Some((w, moved(s, s.drawn + 1, 0))))
}
