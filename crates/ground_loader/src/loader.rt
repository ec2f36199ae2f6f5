// A loader: a ground file's bytes in, height rows out.
ghost use Rattle.std.specs.Prelude.{◌≡◌, length};
ghost use Rattle.numbers.specs.Signal.{at};
ghost use Rattle.areas.specs.Areas.{heights_at};
ghost use Rattle.wavelet.specs.Shape.{columns};
ghost use Rattle.ground_loader.specs.declared.loader.TakeError.TheVariants as take;
ghost use Rattle.reader.specs.Answers.{of_set_up};
ghost use Rattle.reader.specs.Answers as reading;
ghost use Rattle.reader.specs.Calls.{set_up_store};
ghost use Rattle.ground_loader.specs.Loader.{world_of, ran, set_up_question, want_question, take_question};
ghost use Rattle.ground_loader.specs.Loader.{take_reply, take_store, take_row, with_reader};
ghost use Rattle.ground_loader.specs.LoaderAnswers.{of_begun, of_want, of_loaded, of_drawn, set_up_reply, want_reply, begun_by, drawn_by, draw_reply_of};
ghost use Rattle.ground_loader.specs.LoaderAnswers.{draw_store_of, draw_area_of};

use crate::rows::Coming;
use crate::{questions, rows, steps};
use ground_file::saver;
use reader::{ReadError, Reader};
use refusal::Refusal;
use wavelet::shape::Shape;

// The numbers of a loader. `reader` is the reader that it feeds: its size, levels, origin and filter are the file's. `header` bytes of the header came;
// `coming` is what came of the band row that the reader wants, `sum` that of the bytes before the checksum, of which `tail` bytes came.
#[derive(Clone, Copy)]
pub struct Loader {
    pub reader: Reader,
    pub step: usize,
    pub header: usize,
    pub coming: Coming,
    pub sum: u64,
    pub tail: usize,
}

#[derive(Clone, Copy, Debug, PartialEq, Eq)]
pub enum LoaderWant {
    Bytes,
    Draw,
    Done,
    Ended,
}

// Why a taking call ends with no count alone: no map has the rows that came, and the loader, ended, took so many bytes; or it was turned away.
#[derive(Clone, Copy)]
pub enum TakeError {
    Impossible(usize, Loader),
    Refused(Refusal),
}

impl From<Refusal> for TakeError {
    ghost from_gives = { λ why e. e ≡ take.Refused why };

    fn from(why: Refusal) -> TakeError {
        TakeError::Refused(why)
    }
}

// Why nothing was drawn: no map has the rows that came, and the loader is ended; or the call was turned away.
#[derive(Clone, Copy)]
pub enum DrawError {
    Impossible(Loader),
    Refused(Refusal),
}

// Stays: `phase` is a number, since definitions, theorems and the C call's answer compare it as one.
// What a loader wants next. `phase`: 0 the header, 1 a band row of `count` numbers, of the band with the code `band` at `level`, 2 the checksum; 3 a draw,
// 4 done, 5 ended.
#[derive(Clone, Copy)]
pub struct Due {
    pub phase: usize,
    pub level: usize,
    pub band: usize,
    pub count: usize,
}

// The loader after a byte, and what it wants.
#[derive(Clone, Copy)]
pub struct Next {
    pub loader: Loader,
    pub due: Due,
}

// Why a byte was not taken: no file has it there, a value of its row is out of its level's range, or no map has the rows, and the loader is ended.
#[derive(Clone, Copy)]
pub enum Stop {
    NoFile,
    OutOfRange,
    Ended(Loader),
}

impl Loader {
    // A fresh loader of a file with this shape and step; the needed part of the line store is zeroed. The questions are 2, 3, 18, 4, 20, 22 (a step above 1 is
    // not loaded yet) and 5.
    pub fn set_up(map: Shape, step: usize, store: &mut [i32]) -> Result<Loader, Refusal>
        ensures result_value { of_begun result ≡ set_up_reply map step (set_up_question map step (length store.old)) }
        ensures store_after { at store.new ≡
            set_up_store map.filter (columns map) map.levels (set_up_question map step (length store.old)) (at store.old) }
    {
        saver::set_up_question(map, step)?;
        if 1 < step {
            return Err(Refusal::NoFile);
        }
        by_reader(Reader::set_up(map, store), step)
    }

    // What it wants. Question 1 is asked.
    pub fn want(self) -> Result<LoaderWant, Refusal>
        ensures { of_want result ≡ want_reply self (want_question self) }
    {
        if !questions::counts_fit(self) {
            return Err(Refusal::BadState);
        }
        let d = steps::due_of(self);
        if d.phase < 3 {
            return Ok(LoaderWant::Bytes);
        }
        if d.phase == 3 {
            return Ok(LoaderWant::Draw);
        }
        if d.phase == 4 {
            return Ok(LoaderWant::Done);
        }
        Ok(LoaderWant::Ended)
    }

    // The next bytes of the file, until a height row can be drawn, the file is over or the run is used up. The questions are 1, 5, 9 and 8; then 22, 7 and 14.
    pub fn take(
        self,
        store: &mut [i32],
        row: &mut [i32],
        run: &[u8],
    ) -> Result<(usize, Loader), TakeError>
        ensures answer { of_loaded result ≡
            take_reply (take_question self (length store.old) (length row.old))
            (ran (length store.old) run.now (world_of self (at store.old) (at row.old))) }
        ensures kept { at store.new ≡
            take_store (take_question self (length store.old) (length row.old))
            (ran (length store.old) run.now (world_of self (at store.old) (at row.old)))
            (at store.old) }
        ensures came { at row.new ≡
            take_row (take_question self (length store.old) (length row.old))
            (ran (length store.old) run.now (world_of self (at store.old) (at row.old))) (at row.old) }
    {
        questions::take_question(self, store.len(), row.len())?;
        steps::take_run(self, store, row, run)
    }

    // A height row is drawn, if one can be. The questions are 1 and the reader's: 5, 9 and, with a row to give, 12 and 14.
    pub fn draw(
        self,
        store: &mut [i32],
        out: &mut [u16],
    ) -> Result<Option<(usize, Loader)>, DrawError>
        ensures answer { of_drawn result ≡ draw_reply_of self (length store.old) (at store.old) (length out.old) }
        ensures kept { at store.new ≡
            draw_store_of self (length store.old) (at store.old) (length out.old) }
        ensures heights { heights_at out.new ≡
            draw_area_of self (length store.old) (at store.old) (length out.old) (heights_at out.old) }
    {
        if !questions::counts_fit(self) {
            return Err(DrawError::Refused(Refusal::BadState));
        }
        let r = self.reader;
        self.handed(r.draw(store, out))
    }

    // What the reader's draw gives.
    fn handed(
        self,
        drawn: Result<Option<(usize, Reader)>, ReadError>,
    ) -> Result<Option<(usize, Loader)>, DrawError>
        ensures { of_drawn result ≡ drawn_by self (reading.of_drawn drawn) }
    {
        match drawn {
            Ok(Some((n, t))) => Ok(Some((n, self.with(t)))),
            Ok(None) => Ok(None),
            Err(ReadError::Impossible(t)) => Err(DrawError::Impossible(self.with(t))),
            Err(ReadError::Refused(why)) => Err(DrawError::Refused(why)),
        }
    }

    // The loader with another reader.
    fn with(self, reader: Reader) -> Loader
        ensures { result ≡ with_reader self reader }
    {
        Loader { reader, ..self }
    }
}

// The fresh loader of a reader's set-up.
fn by_reader(reader: Result<Reader, Refusal>, step: usize) -> Result<Loader, Refusal>
    ensures { of_begun result ≡ begun_by step (of_set_up reader) }
{
    match reader {
        Ok(reader) => Ok(Loader {
            reader,
            step,
            header: 0,
            coming: rows::before_group(0),
            sum: 0,
            tail: 0,
        }),
        Err(why) => Err(why),
    }
}
