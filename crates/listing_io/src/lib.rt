// The listing program over std's readers and writers, within a constant memory.
// No contract can say what is read or written; what becomes of the bytes between is said of each round (`rounds`), and by a theorem of all of them
// (proofs/ListedTheorem.antt).
#![tactic(auto)]

ghost use Rattle.std.specs.Prelude.{◌≡◌, length};
ghost use Rattle.numbers.specs.Signal.{at};
ghost use Rattle.pgm.specs.Limits.{max_picture_width};
ghost use Rattle.listing.specs.States.{map_store, State, state_of, end_state};
ghost use Rattle.listing_io.specs.Listed.{listing_machine, Listed};

use listing::listing::Listing;
use rounds::program::{Fed, Program};
use rounds::run;
use std::io::{Print, Read, Write};

// A listing with its line store and its row area.
#[derive(Drop)]
struct Lister {
    listing: Listing,
    store: [i32; Listing::STORE],
    row: [i32; Listing::ROW],
    ghost lengths: { (length store ≡ map_store) × (length row ≡ max_picture_width) },
}

impl Program for Lister {
    ghost State = { State };

    ghost state = { λ p. state_of p.listing (at p.store) (at p.row) };

    ghost machine = { listing_machine map_store max_picture_width };

    ghost ended = { end_state map_store max_picture_width };

    fn busy(&self) -> usize {
        self.listing.line.part
    }

    fn phase(&self) -> usize {
        self.listing.input.phase
    }

    fn feed(&mut self, piece: &[u8], out: &mut [u8]) -> Fed {
        let fed = self
            .listing
            .feed(piece, &mut self.store, &mut self.row, out);
        self.listing = fed.listing;
        Fed {
            used: fed.used,
            written: fed.written,
            idle: fed.idle,
        }
    }

    fn end(&mut self) {
        self.listing = self.listing.end(&mut self.store, &mut self.row);
    }
}

// Lists the map that the reader gives, whatever map it is that a listing takes, to the writer. What fails is told on standard error, which `errors` is, by
// the input's name or "standard output". Answers whether the listing is written whole.
pub fn list<R: Read, W: Write, E: Print>(from: &mut R, name: &[u8], to: &mut W, errors: &E) -> bool
    ensures { Listed result }
{
    let mut lister = Lister {
        listing: Listing::start(),
        store: [0; Listing::STORE],
        row: [0; Listing::ROW],
    };
    run::run(&mut lister, from, name, to, errors)
}
