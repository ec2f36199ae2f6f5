// What comes in while no line is being written: heights that came together are offered together, any other byte is read by itself. The module is
// private: only this crate, which meets what is required, can call it.
ghost use Rattle.std.specs.Prelude.{◌≡◌, true, false, ◌+◌, ◌<◌, ◌≤◌, length};
ghost use Rattle.numbers.specs.Signal.{at};
ghost use Rattle.listing.specs.States.{state_of};
ghost use Rattle.listing.specs.Moves.{Reads};

use crate::listing::Listing;
use crate::states;
use pgm::input::Input;
use pgm::runs;
use text::bytes;

#[derive(Clone, Copy)]
pub struct Read {
    pub listing: Listing,
    pub used: usize,
}

fn read_byte(
    listing: Listing,
    piece: &[u8],
    used: usize,
    store: &mut [i32],
    row: &mut [i32],
) -> Read
    requires { (listing.line.part ≡ 0) × (used < length piece.now) }
    ensures { Reads (length store.old) (length row.old) (state_of listing (at store.old) (at row.old))
        piece.now used result.used (state_of result.listing (at store.new) (at row.new)) }
{
    Read {
        listing: states::read(listing, piece[used], store, row),
        used: used + 1,
    }
}

// As many whole heights as there are, as are still to come and as fit the run; the writer says how many of them it takes. Where the next sample is no
// height, its byte is read.
fn read_run(
    listing: Listing,
    piece: &[u8],
    used: usize,
    store: &mut [i32],
    row: &mut [i32],
    run: &mut [u16],
) -> Read
    requires { (listing.line.part ≡ 0) × (listing.input.phase ≡ 3) × (listing.input.samples.half ≡ false) × (0 < listing.input.left) ×
        (used + 2 ≤ length piece.now) × (0 < length run.old) × (listing.writer.level ≡ 0) }
    ensures { Reads (length store.old) (length row.old) (state_of listing (at store.old) (at row.old))
        piece.now used result.used (state_of result.listing (at store.new) (at row.new)) }
{
    let input = listing.input;
    let writer = listing.writer;
    let state = input.samples;
    let largest = state.largest;
    let most = bytes::least(input.left, run.len());
    let n = runs::read(piece, used, largest, &mut run[..most]);
    if n == 0 {
        return read_byte(listing, piece, used, store, row);
    }
    match writer.offer(store, &run[..n]) {
        Ok(taken) => Read {
            listing: states::draw(input.took(taken.heights), taken.writer, store, row),
            used: used + runs::size(largest) * taken.heights,
        },
        Err(_) => read_byte(listing, piece, used, store, row),
    }
}

// Heights that came together, by way of a small area.
fn read_heights(
    listing: Listing,
    piece: &[u8],
    used: usize,
    store: &mut [i32],
    row: &mut [i32],
) -> Read
    requires { (listing.line.part ≡ 0) × (listing.input.phase ≡ 3) × (listing.input.samples.half ≡ false) × (0 < listing.input.left) ×
        (used + 2 ≤ length piece.now) × (listing.writer.level ≡ 0) }
    ensures { Reads (length store.old) (length row.old) (state_of listing (at store.old) (at row.old))
        piece.now used result.used (state_of result.listing (at store.new) (at row.new)) }
{
    let mut run = [0u16; 256];
    read_run(listing, piece, used, store, row, &mut run)
}

// Whether a whole height is next, and no band row waits at any level: then an offer takes some. Where it says no, the next byte is read, which is right for
// any input.
fn are_next(input: Input, level: usize, bytes: usize) -> bool
    ensures { result ≡ true → (input.phase ≡ 3) × (input.samples.half ≡ false) × (0 < input.left) × (2 ≤ bytes) × (level ≡ 0) }
{
    let heights = input.phase == 3 && !input.samples.half && 0 < input.left;
    heights && 2 <= bytes && level == 0
}

pub fn read_on(
    listing: Listing,
    piece: &[u8],
    used: usize,
    store: &mut [i32],
    row: &mut [i32],
) -> Read
    requires { (listing.line.part ≡ 0) × (used < length piece.now) }
    ensures { Reads (length store.old) (length row.old) (state_of listing (at store.old) (at row.old))
        piece.now used result.used (state_of result.listing (at store.new) (at row.new)) }
{
    let writer = listing.writer;
    if are_next(listing.input, writer.level, piece.len() - used) {
        return read_heights(listing, piece, used, store, row);
    }
    read_byte(listing, piece, used, store, row)
}
