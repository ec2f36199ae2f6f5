// The gate questions of the writer's calls, in order: the first that says no.
ghost use Rattle.std.specs.Prelude.{◌≡◌, ◌^◌, ◌<◌, ◌≤◌, leb, eqb};
ghost use Rattle.numbers.specs.Signal.{both};
ghost use Rattle.lifting.specs.Grid.{side};
ghost use Rattle.wavelet.specs.Limits.{max_height};
ghost use Rattle.filters.specs.Figures.{streamable};
ghost use Rattle.refusal.specs.Numbers.{answer};
ghost use Rattle.progress.specs.Counts.{most_left, start_of};
ghost use Rattle.writer.specs.Taking.{columns_of};
ghost use Rattle.writer.specs.Questions.{on_grid, most_column, in_ranges, rows_taken, known, set_up_question, offer_question, finish_question};
ghost use Rattle.writer.specs.FirstQuestions.{state_question, open_question};

use crate::{Writer, cascade};
use progress::counts;
use refusal::Refusal;
use wavelet::{limits, sizes};

// Does the stretch of level v begin at place o? The stretches before it are taken off: added up first, they would cost the short calls more.
fn begins(filter: usize, w: usize, x: usize, v: usize, o: usize) -> bool
    requires { (w < 2 ^ 16) × (0 < v) }
    ensures { result ≡ eqb o (start_of filter (side x w) v) }
{
    let mut width = w;
    let mut column = x;
    let mut rest = o;
    for _above in 1..v {
        let a = cascade::stretch(filter, width, column);
        if rest < a {
            return false;
        }
        rest -= a;
        width = sizes::low_count(column, width);
        column = sizes::next_start(column);
    }
    rest == 0
}

// What waits: the bands that are left, and where its level's stretch begins; where nothing waits, as most often, neither is looked for.
fn waits_in_range(s: Writer) -> bool
    requires { (s.width < 2 ^ 16) × (s.level ≤ s.levels) }
    ensures { result ≡ both (leb s.left (most_left s.levels s.level)) (eqb s.offset (start_of s.filter (columns_of s) s.level)) }
{
    if s.level == 0 {
        if 0 < s.left {
            return false;
        }
        return s.offset == 0;
    }
    if counts::most(s.levels - s.level) < s.left {
        return false;
    }
    begins(s.filter, s.width, s.x, s.level, s.offset)
}

// Whether a map starts on the grid.
fn on_grid(x: usize, y: usize) -> bool
    ensures { result ≡ on_grid x y }
{
    if Writer::MAX_ORIGIN < x {
        return false;
    }
    y <= Writer::MAX_ORIGIN
}

// Whether questions 2, 18 and 4 pass.
fn is_sized(filter: usize, width: usize, x: usize, levels: usize) -> bool
    ensures { result ≡ streamable filter (side x width) levels }
{
    if !filters::is_filter(filter) {
        return false;
    }
    if !limits::is_within(width, Writer::MAX_WIDTH) {
        return false;
    }
    limits::is_within(levels, Writer::most_levels(filter))
}

// How many heights can be counted: of the row begun, or, while band rows wait, of the spare row. None where no height can come.
fn most_column(s: Writer) -> usize
    ensures { result ≡ most_column s s.level }
{
    if s.level == 0 {
        return counts::minus(s.width, 1);
    }
    if s.finished {
        return 0;
    }
    if Writer::MAX_HEIGHT <= s.rows {
        return 0;
    }
    s.width
}

// Question 1: the counts' ranges.
pub fn in_ranges(s: Writer) -> bool
    ensures { result ≡ in_ranges s }
{
    if !on_grid(s.x, s.y) {
        return false;
    }
    if !is_sized(s.filter, s.width, s.x, s.levels) {
        return false;
    }
    if Writer::MAX_HEIGHT < s.rows {
        return false;
    }
    if most_column(s) < s.column {
        return false;
    }
    if filters::look_ahead(s.filter) * s.levels < s.closed {
        return false;
    }
    if s.levels < s.level {
        return false;
    }
    waits_in_range(s)
}

// Questions 1 and 5, n being the length of the store. The first is asked before: two small functions are put into each call, one of both would not be.
pub fn state_question(s: Writer, fits: bool, n: usize) -> Result<(), Refusal>
    requires { fits ≡ in_ranges s }
    ensures { answer result ≡ state_question s n }
{
    if !fits {
        return Err(Refusal::BadState);
    }
    if filters::holds_any(s.filter, s.width, counts::minus(n, s.width)) {
        return Ok(());
    }
    if n < filters::writer_store_length(s.filter, s.width, s.x, s.levels) {
        return Err(Refusal::AreaShort);
    }
    Ok(())
}

// Questions 9 and 8.
fn open_question(s: Writer) -> Result<(), Refusal>
    ensures { answer result ≡ open_question s }
{
    if s.finished {
        return Err(Refusal::IsOver);
    }
    if 0 < s.level {
        return Err(Refusal::NotItsTurn);
    }
    Ok(())
}

// Question 18 of a set-up.
fn is_filter(filter: usize) -> bool
    ensures { result ≡ known filter }
{
    filters::is_filter(filter)
}

// Of columns from x on.
pub fn set_up_question(
    filter: usize,
    width: usize,
    x: usize,
    levels: usize,
    n: usize,
) -> Result<(), Refusal>
    ensures { answer result ≡ set_up_question filter (side x width) levels n }
{
    if !limits::is_within(width, Writer::MAX_WIDTH) {
        return Err(Refusal::BadWidth);
    }
    if !is_filter(filter) {
        return Err(Refusal::BadFilter);
    }
    if !limits::is_within(levels, Writer::most_levels(filter)) {
        return Err(Refusal::BadLevels);
    }
    if n < filters::writer_store_length(filter, width, x, levels) {
        return Err(Refusal::AreaShort);
    }
    Ok(())
}

// Whether the rows complete are as many as can be, that of the spare row among them.
fn is_full(s: Writer) -> bool
    requires { (0 < s.width) × (s.column ≤ s.width) × (s.rows ≤ max_height) }
    ensures { result ≡ leb max_height (rows_taken s) }
{
    if s.column < s.width {
        return Writer::MAX_HEIGHT <= s.rows;
    }
    Writer::MAX_HEIGHT <= s.rows + 1
}

// An offer of k heights.
pub fn offer_question(s: Writer, n: usize, k: usize) -> Result<(), Refusal>
    ensures { answer result ≡ offer_question s n k }
{
    let fits = in_ranges(s);
    state_question(s, fits, n)?;
    if s.finished {
        return Err(Refusal::IsOver);
    }
    if 0 < k && is_full(s) {
        return Err(Refusal::RowsFull);
    }
    Ok(())
}

pub fn finish_question(s: Writer, n: usize) -> Result<(), Refusal>
    ensures { answer result ≡ finish_question s n }
{
    let fits = in_ranges(s);
    state_question(s, fits, n)?;
    open_question(s)?;
    if s.rows == 0 || 0 < s.column {
        return Err(Refusal::RowOpen);
    }
    Ok(())
}
