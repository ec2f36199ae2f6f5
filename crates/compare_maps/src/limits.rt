// The samples of document 01 on either side of a limit: W, L, and the range of level-1 coefficients. Their numbers are 01's own, not the product's constants.
use crate::reading::code_of;
use reader::{ReadError, Reader};
use reference::tally::Tally;
use reference::{area, heights};
use refusal::Refusal;
use writer::Writer;

fn writer_answer(width: usize, levels: usize, store: &mut [i32]) -> Result<(), Refusal> {
    Writer::set_up(heights::shape_of(width, 1, levels), store)?;
    Ok(())
}

fn reader_answer(width: usize, levels: usize, store: &mut [i32]) -> Result<(), Refusal> {
    Reader::set_up(heights::shape_of(width, 1, levels), store)?;
    Ok(())
}

fn differ(answer: Result<(), Refusal>, expected: u8) -> u64 {
    area::differ(refusal::code(answer), expected)
}

// A map of one row, there and back: W and L are asked by both calls.
fn map_answer(width: usize, levels: usize, plane: &mut [i32], expected: u8) -> u64 {
    let mut heights = [0u16; 2100];
    let mut work = [0i32; 2100];
    let s = heights::shape_of(width, 1, levels);
    let a = whole_map::forward(&heights, s, plane, &mut work);
    let b = whole_map::backward(plane, s, &mut heights, &mut work);
    area::sum(differ(a, expected), differ(b, expected))
}

fn stream_answer(width: usize, levels: usize, expected: u8) -> u64 {
    let mut store = [0i32; 18000];
    let a = writer_answer(width, levels, &mut store);
    let b = reader_answer(width, levels, &mut store);
    area::sum(differ(a, expected), differ(b, expected))
}

// One width and number of levels at every call that asks for them: the whole map, the view and the set-ups.
fn size(t: Tally, width: usize, levels: usize, expected: u8) -> Tally {
    let mut plane = [0i32; 2100];
    let a = map_answer(width, levels, &mut plane, expected);
    let b = stream_answer(width, levels, expected);
    let s = heights::shape_of(width, 1, levels);
    let c = wavelet::view::band_row_question(&plane, s, levels, 0, 0);
    t.more(5, area::sum(differ(c, expected), area::sum(a, b)))
}

// All feeds of a 2 × 2 map at one level.
fn feeds(plane: &[i32]) -> Result<Reader, ReadError> {
    let mut store = [0i32; 16];
    let mut reader = Reader::set_up(heights::shape_of(2, 2, 1), &mut store)?;
    for i in 0..plane.len() {
        reader = reader.feed(&mut store, &plane[i..i + 1])?;
    }
    Ok(reader)
}

fn at_band(band: usize, i: usize, v: i32) -> i32 {
    if band == i { v } else { 0 }
}

// A plane of 2 × 2 with one coefficient that is not 0: back by the whole map and by the reader.
fn coefficient(t: Tally, band: usize, v: i32, expected: u8) -> Tally {
    let plane = [
        at_band(band, 0, v),
        at_band(band, 1, v),
        at_band(band, 2, v),
        at_band(band, 3, v),
    ];
    let mut heights = [0u16; 4];
    let mut work = [0i32; 4];
    let a = whole_map::backward(&plane, heights::shape_of(2, 2, 1), &mut heights, &mut work);
    let b = code_of(feeds(&plane));
    t.more(2, area::sum(differ(a, expected), area::differ(b, expected)))
}

// "Level-1 coefficient 262,140 passes question 7, 262,141 does not." Just inside its range a coefficient passes it; no map has it, so the answer is 14.
fn coefficients(start: Tally) -> Tally {
    let mut t = start;
    for band in 0..4 {
        t = coefficient(t, band, 262140, 14);
        t = coefficient(t, band, 262141, 7);
        t = coefficient(t, band, -262140, 14);
        t = coefficient(t, band, -262141, 7);
    }
    t
}

// "W 2,049 passes, 2,050 gives 2; W 0 gives 2."
fn widths(t: Tally) -> Tally {
    let a = size(t, 2049, 5, 0);
    let b = size(a, 2050, 5, 2);
    size(b, 0, 5, 2)
}

// "L 5 passes, 6 gives 4."
fn levels(t: Tally) -> Tally {
    let a = size(t, 1, 5, 0);
    size(a, 1, 6, 4)
}

pub fn run() -> Tally {
    coefficients(levels(widths(Tally::default())))
}
