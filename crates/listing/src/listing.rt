// The listing: bytes of the input in, bytes of the lines out. Each band row that comes due is written as a line before more input is read.
ghost use Rattle.std.specs.Prelude.{◌≡◌, ◌+◌, ◌≤◌, ◌<◌, eqb, length, IfSome, IfNone};
ghost use Rattle.numbers.specs.Signal.{at};
ghost use Rattle.pgm.specs.Limits.{max_picture_width};
ghost use Rattle.listing.specs.States.{map_store, state_of, Leaves, started, end_state};
ghost use Rattle.listing.specs.Moves.{Went, Stops};

use crate::line::Line;
use crate::{reading, states, writing};
use pgm::input::{Incomplete, Input};
use pgm::limits;
use refusal::Refusal;
use writer::Writer;

#[derive(Clone, Copy)]
pub struct Listing {
    pub input: Input,
    pub writer: Writer,
    pub line: Line,
}

// What a call left: the listing, how many bytes of the piece it read, how many of the area it wrote, and whether it waits for input.
// Stays: the results of one call, each of which holds in every case: `idle` says nothing of the others.
#[derive(Clone, Copy)]
pub struct Fed {
    pub listing: Listing,
    pub used: usize,
    pub written: usize,
    pub idle: bool,
}

impl Listing {
    // How many numbers the lent areas have to hold so that no map listed is refused: the line store of the largest width and number of levels, and
    // the longest band row.
    pub const STORE: usize = 8981;

    pub const ROW: usize = limits::MAX_WIDTH;

    // The constants, each pinned to the definition's number.
    pub fn store_length() -> usize
        ensures { result ≡ map_store }
    {
        Listing::STORE
    }

    pub fn row_length() -> usize
        ensures { result ≡ max_picture_width }
    {
        Listing::ROW
    }

    pub fn start() -> Self
        ensures { result ≡ started }
    {
        Listing {
            input: Input::start(0),
            writer: Writer {
                width: 1,
                levels: 1,
                rows: 0,
                column: 0,
                finished: false,
                closed: 0,
                level: 0,
                left: 0,
                offset: 0,
                x: 0,
                y: 0,
                filter: 0,
            },
            line: Line::none(),
        }
    }

    // Reads a piece of the input and writes lines, until the area is full, or the piece is used up and no line is left. The rest of a piece is lent again.
    pub fn feed(self, piece: &[u8], store: &mut [i32], row: &mut [i32], out: &mut [u8]) -> Fed
        ensures went { Went (length store.old) (length row.old) (state_of self (at store.old) (at row.old))
            piece.now 0 result.used out.old out.new 0 result.written
            (state_of result.listing (at store.new) (at row.new)) }
        ensures stops { Stops (state_of result.listing (at store.new) (at row.new)) piece.now result.used out.old
            result.written result.idle }
    {
        let mut state = self;
        let mut used = 0;
        let mut written = 0;
        while let Some(next) = turn(state, piece, used, store, row, out, written) {
            state = next.listing;
            used = next.used;
            written = next.written;
        }
        Fed {
            listing: state,
            used,
            written,
            idle: state.line.part == 0,
        }
    }

    // The input has ended. To be called once no line is being written.
    #[tactic(auto, unfolding(crate::specs::States::end_state))]
    pub fn end(self, store: &mut [i32], row: &mut [i32]) -> Listing
        ensures { Leaves (end_state (length store.old) (length row.old)
            (state_of self (at store.old) (at row.old))) result (at store.new) (at row.new) }
    {
        if 0 < self.line.part {
            return self;
        }
        match self.input.end() {
            Ok(next) => states::finish(next, self.writer, store, row),
            Err(Incomplete::Short(next)) => states::refuse(next, self.writer, Refusal::BadInput),
            Err(Incomplete::Before) => self,
        }
    }
}

// What a turn left.
#[derive(Clone, Copy)]
struct Turned {
    listing: Listing,
    used: usize,
    written: usize,
}

// One turn: input is read while no line is being written, else the line is. None where there is nothing to read, or no room to write.
fn turn(
    listing: Listing,
    piece: &[u8],
    used: usize,
    store: &mut [i32],
    row: &mut [i32],
    out: &mut [u8],
    written: usize,
) -> Option<Turned>
    requires { (used ≤ length piece.now) × (written ≤ length out.old) }
    ensures went { IfSome result (λ t. Went (length store.old) (length row.old) (state_of listing (at store.old) (at row.old))
        piece.now used t.used out.old out.new written t.written (state_of t.listing (at store.new) (at row.new))) }
    ensures onward { IfSome result (λ t. used + written < t.used + t.written) }
    ensures stops { IfNone result (Stops (state_of listing (at store.old) (at row.old)) piece.now used out.old written
        (eqb listing.line.part 0)) }
    ensures kept { IfNone result ((store.new ≡ store.old) × (row.new ≡ row.old) × (out.new ≡ out.old)) }
{
    if listing.line.part == 0 {
        if used == piece.len() {
            return None;
        }
        let read = reading::read_on(listing, piece, used, store, row);
        return Some(Turned {
            listing: read.listing,
            used: read.used,
            written,
        });
    }
    if written == out.len() {
        return None;
    }
    let wrote = writing::write_on(listing, store, row, out, written);
    Some(Turned {
        listing: wrote.listing,
        used,
        written: wrote.place,
    })
}
