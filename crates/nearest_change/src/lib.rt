// The change of one height that is nearest to altering a cell of the level-1 LL (5/3, origin 0). Document 02, Q-12.
#![tactic(auto)]

mod five;
mod trial;
mod window;

ghost use Rattle.std.specs.Prelude.{◌≡◌, ℕ, ◌<◌, length, get_or};
ghost use Rattle.nearest_change.specs.NearestChange.{ground_of};
ghost use Rattle.nearest_change.specs.Calls.{nearest_question, Answers};
ghost use Rattle.nearest_change.specs.Trials.{Ready, IsFirst, Makes, cell_in, tried, made_by};
ghost use Rattle.refusal.specs.Numbers.{answer};

use refusal::Refusal;
use trial::Cell;
use wavelet::{limits, sizes};

// A change of one height of a map: where it is, and the new height.
#[derive(Clone, Copy)]
pub struct Change {
    pub row: usize,
    pub column: usize,
    pub height: usize,
}

// Questions 2, 3, 5 and 6, of n heights: the first that says no.
fn question(n: usize, width: usize, height: usize, row: usize, column: usize) -> Result<(), Refusal>
    ensures { answer result ≡ nearest_question n width height row column }
{
    if !limits::is_within(width, limits::MAX_WIDTH) {
        return Err(Refusal::BadWidth);
    }
    if !limits::is_within(height, limits::MAX_HEIGHT) {
        return Err(Refusal::BadHeight);
    }
    if n < width * height {
        return Err(Refusal::AreaShort);
    }
    if sizes::low_count(0, height) <= row {
        return Err(Refusal::NoBandRow);
    }
    if sizes::low_count(0, width) <= column {
        return Err(Refusal::NoBandRow);
    }
    Ok(())
}

// The cell beside its window.
fn cell(window: [usize; 25], height: usize, width: usize, row: usize, column: usize) -> Cell
    requires by_index { (j : ℕ) → get_or window j 0 < 65536 }
    requires row_lt_height { (row < height) × (column < width) × (height < 4294967296) × (width < 4294967296) }
    ensures { result ≡ cell_in window height width row column }
{
    let rows = five::places(height, row);
    let columns = five::places(width, column);
    let lows = window::lows(&window);
    let value = five::lifted(lows);
    Cell {
        window,
        height,
        width,
        row,
        column,
        rows,
        columns,
        lows,
        value,
    }
}

// The first trial that works.
fn first(cell: &Cell) -> usize
    requires { Ready cell.now.window cell.now }
    ensures { IsFirst (tried cell.now.window cell.now) result }
{
    for t in 0..200 {
        if cell.works(t) {
            return t;
        }
    }
    200
}

// The change that trial t makes.
fn made(w: &[usize; 25], row: usize, column: usize, t: usize) -> Change
    requires { Makes w.now row column t }
    ensures { result ≡ made_by w.now row column t }
{
    let i = t / 5 % 5;
    let k = t % 5;
    let old = w[5 * k + i];
    let by = t / 50 + 1;
    let height = if t / 25 % 2 == 1 { old - by } else { old + by };
    Change {
        row: 2 * row + i - 2,
        column: 2 * column + k - 2,
        height,
    }
}

// The nearest change that alters the cell in this row and column. The questions are 2, 3, 5 and 6.
pub fn find(
    heights: &[u16],
    width: usize,
    height: usize,
    row: usize,
    column: usize,
) -> Result<Change, Refusal>
    ensures { Answers (nearest_question (length heights.now) width height row column) width height
        (ground_of width heights.now) row column result }
{
    question(heights.len(), width, height, row, column)?;
    let w = window::window(
        heights,
        width,
        five::places(height, row),
        five::places(width, column),
    );
    let t = first(&cell(w, height, width, row, column));
    Ok(made(&w, row, column, t))
}
