// What the rounds know of a program: bytes of the input in, bytes of the output out, cut anywhere.
ghost use Rattle.std.specs.Prelude.{◌≡◌, length};
ghost use Rattle.text.specs.Moves.{Went, Stops};
ghost use Rattle.rounds.specs.Machine.{Machine};

// What a call left: how many bytes of the piece it read, how many of the area it wrote, and whether nothing is left to feed or to write.
// Stays: the results of one call, each of which holds in every case: `idle` says nothing of the others.
#[derive(Clone, Copy)]
pub struct Fed {
    pub used: usize,
    pub written: usize,
    pub idle: bool,
}

pub trait Program {
    // all that it depends on
    ghost State: { Type 0 };

    ghost state: { Self → State };

    ghost machine: { Machine State };
    // what the end of the input makes of it
    ghost ended: { State → State };

    // 0 where nothing is being written.
    fn busy(&self) -> usize
        ensures { result ≡ machine.busy (state self.now) };

    // The phase of its input: from 4 on it reads no more.
    fn phase(&self) -> usize
        ensures { result ≡ machine.phase (state self.now) };

    // Reads a piece of the input and writes what it brings, until the area is full, or the piece is used up and nothing is left to write.
    fn feed(&mut self, piece: &[u8], out: &mut [u8]) -> Fed
        ensures went { Went machine.Move (state self.old) piece.now 0 result.used out.old out.new 0 result.written (state self.new) }
        ensures stops { Stops machine.busy (state self.new) piece.now result.used out.old result.written result.idle };

    // The input has ended. To be called once nothing is being written.
    fn end(&mut self)
        ensures { state self.new ≡ ended (state self.old) };
}
