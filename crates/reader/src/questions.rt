// The gate questions of the reader, in the order of document 01. The module is private, as `walk` is.
ghost use Rattle.std.specs.Prelude.{◌≡◌, ◌≤◌, leb, length};
ghost use Rattle.numbers.specs.Signal.{at, pick};
ghost use Rattle.refusal.specs.Numbers.{answer};
ghost use Rattle.wavelet.specs.Questions.{ask, within};
ghost use Rattle.wavelet.specs.Shape.{columns as columns_of, rows as rows_of};
ghost use Rattle.filters.specs.Filters.{filter_of};
ghost use Rattle.filters.specs.Figures.{store_by, streamable};
ghost use Rattle.reader.specs.State.{columns, needs, draw_due};
ghost use Rattle.reader.specs.Questions.{counts_inside, counts_fit, stop_fits, admission_fits, store_fits, run_fits};
ghost use Rattle.reader.specs.Questions.{set_up_question, size_question, stop_question};
ghost use Rattle.reader.specs.Inside.{Counts, Due, store_question, row_question};

use crate::walk::Next;
use crate::{Reader, steps};
use areas::ranges;
use refusal::Refusal;
use wavelet::limits;
use wavelet::shape::Shape;

// Question 1 of a reader with levels to work out: is every count inside its range? Its sizes, origin and place,
fn counts_inside(s: Reader) -> bool
    ensures { result ≡ counts_inside s }
{
    if !limits::is_within(s.width, Reader::MAX_WIDTH) {
        return false;
    }
    if !limits::is_within(s.height, Reader::MAX_HEIGHT) {
        return false;
    }
    if !filters::is_filter(s.filter) {
        return false;
    }
    if !limits::is_within(s.levels, Reader::most_levels(s.filter)) {
        return false;
    }
    if Reader::MAX_ORIGIN < s.x {
        return false;
    }
    if Reader::MAX_ORIGIN < s.y {
        return false;
    }
    if s.height < s.drawn {
        return false;
    }
    if s.levels < s.level {
        return false;
    }
    if 4 < s.band {
        return false;
    }
    s.back <= 2 * filters::look_ahead(s.filter) - 1
}

// its stop, and its admission. Most readers have no stop, and then nothing is spare.
pub fn counts_fit(s: Reader) -> bool
    ensures { result ≡ counts_fit s }
{
    if !counts_inside(s) {
        return false;
    }
    if s.stop == 0 {
        if s.spare != 0 {
            return false;
        }
        return admission_fits(s);
    }
    if s.admission != 0 {
        return false;
    }
    stop_fits(s.filter, s.levels, s.stop, s.spare)
}

// An admission of a reader without a stop: a tolerant one has no origin and no other filter, and never ends. A strict one may have any.
fn admission_fits(s: Reader) -> bool
    requires { s.stop ≡ 0 }
    ensures { result ≡ admission_fits s }
{
    if s.admission == 0 {
        return true;
    }
    if s.admission != 1 {
        return false;
    }
    if s.ended {
        return false;
    }
    if s.x != 0 {
        return false;
    }
    if s.y != 0 {
        return false;
    }
    s.filter == 0
}

// A stop: the levels up to it and those to work out are the filter's, and a level left out has no more columns than the widest map.
fn stop_fits(filter: usize, levels: usize, stop: usize, spare: usize) -> bool
    requires { levels ≤ (filter_of filter).levels }
    ensures { result ≡ stop_fits filter levels stop spare }
{
    if filters::most_levels(filter) - levels < stop {
        return false;
    }
    spare <= stop * (filters::rows_kept(filter) * Reader::MAX_WIDTH)
}

// Questions 2, 3, 18 and 4 of a map.
pub fn size_question(map: Shape) -> Result<(), Refusal>
    ensures { answer result ≡ size_question map.filter map.width map.height map.levels }
{
    let filter = map.filter as usize;
    if !limits::is_within(map.width, Reader::MAX_WIDTH) {
        return Err(Refusal::BadWidth);
    }
    if !limits::is_within(map.height, Reader::MAX_HEIGHT) {
        return Err(Refusal::BadHeight);
    }
    if !filters::is_filter(filter) {
        return Err(Refusal::BadFilter);
    }
    if !limits::is_within(map.levels, Reader::most_levels(filter)) {
        return Err(Refusal::BadLevels);
    }
    Ok(())
}

// Question 17: has the map that level?
pub fn level_question(map: Shape, level: usize) -> Result<(), Refusal>
    ensures { answer result ≡ ask (within 1 map.levels level) 17 0 }
{
    if !limits::is_within(level, map.levels) {
        return Err(Refusal::BadLevel);
    }
    Ok(())
}

// Question 5 of a set-up: is a line store of `length` numbers long enough for the map?
fn room_question(map: Shape, length: usize) -> Result<(), Refusal>
    ensures { answer result ≡
        ask (leb (pick (streamable map.filter (columns_of map) map.levels) (store_by map.filter (columns_of map) map.levels) 0) length) 5 0 }
{
    if length < filters::store_length(map.filter as usize, map.width, map.x as usize, map.levels) {
        return Err(Refusal::AreaShort);
    }
    Ok(())
}

// Questions 2, 3, 18, 4 and 5 of a set-up, whose line store has `length` numbers.
pub fn set_up_question(map: Shape, length: usize) -> Result<(), Refusal>
    ensures { answer result ≡ set_up_question map.filter (columns_of map) (rows_of map) map.levels length }
{
    size_question(map)?;
    room_question(map, length)
}

// The same with a stop: 17 comes after 4.
pub fn stop_question(map: Shape, stop: usize, length: usize) -> Result<(), Refusal>
    ensures { answer result ≡ stop_question map.filter (columns_of map) (rows_of map) map.levels stop length }
{
    size_question(map)?;
    level_question(map, stop)?;
    room_question(map, length)
}

// Question 7: is each number of the run in its level's range?
pub fn run_fits(filter: usize, run: &[i32], level: usize) -> bool
    requires { level ≤ (filter_of filter).levels }
    ensures { result ≡ run_fits filter level (length run.now) (at run.now) }
{
    let most = filters::range_of(filter, level);
    ranges::all_between(run, -most, most)
}

// Whether `length` numbers are enough for its levels. The first test holds for every number of levels, and at the most levels a width of 2^k + 1 needs just as
// many, so the sizes are seldom added up.
fn own_fits(s: Reader, length: usize) -> bool
    requires { Counts s }
    ensures { result ≡ store_fits (store_by s.filter (columns s) s.levels) length }
{
    if filters::holds_any(s.filter, s.width, length) {
        return true;
    }
    filters::store_length(s.filter, s.width, s.x, s.levels) <= length
}

// Question 5: is a line store of `length` numbers long enough?
fn store_fits(s: Reader, length: usize) -> bool
    requires { Counts s }
    ensures { result ≡ store_fits (needs s) length }
{
    if length < s.spare {
        return false;
    }
    own_fits(s, length - s.spare)
}

// Questions 5 and 9 of a feed or a draw, after question 1. Each call asks that one itself: the two together are too long to be put into both calls.
pub fn store_question(s: Reader, length: usize) -> Result<(), Refusal>
    requires { Counts s }
    ensures { answer result ≡ store_question s length }
{
    if !store_fits(s, length) {
        return Err(Refusal::AreaShort);
    }
    if s.ended {
        return Err(Refusal::IsOver);
    }
    Ok(())
}

// Questions 8, 13 and 7 of a feed, whose row wanted is n.
pub fn row_question(s: Reader, n: Next, run: &[i32]) -> Result<(), Refusal>
    requires { Counts s × Due s n }
    ensures { answer result ≡ row_question s (length run.now) (at run.now) }
{
    let level = s.stop + n.spot.level;
    if s.height <= s.drawn {
        return Err(Refusal::NotItsTurn);
    }
    if n.spot.level == 0 {
        return Err(Refusal::NotItsTurn);
    }
    if run.len() != steps::row_length(s, n) {
        return Err(Refusal::WrongLength);
    }
    if !run_fits(s.filter, run, level) {
        return Err(Refusal::OutOfRange);
    }
    Ok(())
}

// Whether a height row can be drawn; most often at level 0.
pub fn draw_due(s: Reader) -> bool
    requires { Counts s }
    ensures { result ≡ draw_due s }
{
    if s.height <= s.drawn {
        return false;
    }
    if s.level == 0 {
        return true;
    }
    steps::next_of(s).spot.level == 0
}
