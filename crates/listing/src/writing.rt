// What goes out while a line is being written: the values of a band row one after the other where there is room for the longest, else a part as far
// as there is room. The module is private: only this crate, which meets what is required, can call it.
ghost use Rattle.std.specs.Prelude.{◌≡◌, true, ◌+◌, ◌<◌, ◌≤◌, length};
ghost use Rattle.numbers.specs.Signal.{at};
ghost use Rattle.listing.specs.States.{state_of};
ghost use Rattle.listing.specs.Moves.{Writes, WritesOnly};

use crate::line::Line;
use crate::listing::Listing;
use crate::{spelling, states, values};
use text::bytes;

#[derive(Clone, Copy)]
pub struct Written {
    pub listing: Listing,
    pub place: usize,
}

// The store is not lent here, so it stays.
fn write_values(listing: Listing, row: &[i32], out: &mut [u8], place: usize) -> Written
    requires { (3 < listing.line.part) × (listing.line.done ≡ 0) × (listing.line.value < listing.line.length) ×
        (listing.line.value < length row.now) × (place + 12 ≤ length out.old) }
    ensures { WritesOnly (length row.now) listing (at row.now) out.old out.new place result.place
        result.listing }
{
    let line = listing.line;
    let end = bytes::least(line.length, row.len());
    let v = values::put_values(row, line.value, end, out, place);
    Written {
        listing: states::with_line(listing, states::at_value(line, v.value)),
        place: v.place,
    }
}

fn write_part(
    listing: Listing,
    store: &mut [i32],
    row: &mut [i32],
    out: &mut [u8],
    place: usize,
) -> Written
    requires { (0 < listing.line.part) × (place < length out.old) }
    ensures { Writes (length store.old) (length row.old) (state_of listing (at store.old) (at row.old))
        out.old out.new place result.place (state_of result.listing (at store.new) (at row.new)) }
{
    let line = listing.line;
    let s = spelling::spell(line, row, out, place);
    if s.rest == 0 {
        return Written {
            listing: states::advance(listing, store, row),
            place: place + s.written,
        };
    }
    Written {
        listing: states::with_line(listing, line.with_done(s.done)),
        place: place + s.written,
    }
}

// Whether a whole value is next and there is room for the longest. Where it says no, the part is written as far as there is room, which is right for any line.
fn are_next(line: Line, row: usize, room: usize) -> bool
    ensures { result ≡ true → (3 < line.part) × (line.done ≡ 0) × (line.value < line.length) × (line.value < row) × (12 ≤ room) }
{
    let next = 3 < line.part && line.done == 0;
    next && line.value < line.length && line.value < row && values::LONGEST <= room
}

pub fn write_on(
    listing: Listing,
    store: &mut [i32],
    row: &mut [i32],
    out: &mut [u8],
    place: usize,
) -> Written
    requires { (0 < listing.line.part) × (place < length out.old) }
    ensures { Writes (length store.old) (length row.old) (state_of listing (at store.old) (at row.old))
        out.old out.new place result.place (state_of result.listing (at store.new) (at row.new)) }
{
    let line = listing.line;
    if are_next(line, row.len(), out.len() - place) {
        return write_values(listing, row, out, place);
    }
    write_part(listing, store, row, out, place)
}
