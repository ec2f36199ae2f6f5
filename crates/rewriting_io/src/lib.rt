// The rewriting program over std's readers and writers, within a constant memory.
// No contract can say what is read or written; what becomes of the bytes between is said of each round (`rounds`), and by a theorem of all of them
// (proofs/RewrittenTheorem.antt).
#![tactic(auto)]

ghost use Rattle.std.specs.Prelude.{◌≡◌};
ghost use Rattle.picture.specs.Machine.{Kept, kept, end_kept};
ghost use Rattle.rewriting_io.specs.Rewritten.{rewriting_machine, Rewritten};

use picture::rewriting::Rewriting;
use rounds::program::{Fed, Program};
use rounds::run;
use std::io::{Print, Read, Write};

// A rewriting with its row area.
#[derive(Drop)]
struct Rewriter {
    rewriting: Rewriting,
    row: [u16; Rewriting::ROW],
}

impl Program for Rewriter {
    ghost State = { Kept };

    ghost state = { λ p. kept p.rewriting p.row };

    ghost machine = { rewriting_machine };

    ghost ended = { end_kept };

    fn busy(&self) -> usize {
        self.rewriting.part.kind
    }

    fn phase(&self) -> usize {
        self.rewriting.input.phase
    }

    fn feed(&mut self, piece: &[u8], out: &mut [u8]) -> Fed {
        let fed = self.rewriting.feed(piece, &mut self.row, out);
        self.rewriting = fed.rewriting;
        Fed {
            used: fed.used,
            written: fed.written,
            idle: fed.idle,
        }
    }

    fn end(&mut self) {
        self.rewriting = self.rewriting.end();
    }
}

// Rewrites the picture that the reader gives, whatever picture it is that a rewriting takes, to the writer. What fails is told on standard error, which
// `errors` is, by the input's name or "standard output". Answers whether all is written.
pub fn rewrite<R: Read, W: Write, E: Print>(
    from: &mut R,
    name: &[u8],
    to: &mut W,
    errors: &E,
) -> bool
    ensures { Rewritten result }
{
    let mut rewriter = Rewriter {
        rewriting: Rewriting::start(),
        row: [0; Rewriting::ROW],
    };
    run::run(&mut rewriter, from, name, to, errors)
}
