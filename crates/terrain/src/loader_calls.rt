// The loader's calls. The state is the caller's array: `loader_state` unpacks and packs it.
ghost use Rattle.std.specs.Prelude.{◌≡◌, length};
ghost use Rattle.numbers.specs.Signal.{at};
ghost use Rattle.areas.specs.Areas.{heights_at};
ghost use Rattle.wavelet.specs.Shape.{columns};
ghost use Rattle.reader.specs.Calls.{set_up_store};
ghost use Rattle.ground_loader.specs.Loader.{set_up_question};
ghost use Rattle.states.specs.LoaderAnswers.{taken_number, loaded_words, taken_of, drawn_number, drawn_words, drawn_of};
ghost use Rattle.terrain.specs.LoaderCalls.{number, loading, state_of, wanting, want_of, taking, taking_store, taking_row};
ghost use Rattle.terrain.specs.LoaderCalls.{drawing, drawing_store, drawing_area};

use ground_loader::loader::{Loader, LoaderWant};
use states::loader_state;
use wavelet::shape::Shape;

// A fresh loader of a file with this shape and step. The questions are 2, 3, 18, 4, 20, 22 and 5.
pub fn terrain_load_set_up(
    state: &mut [u64; 32],
    shape: Shape,
    step: usize,
    store: &mut [i32],
) -> u32
    ensures value { result ≡ number (loading shape step (length store.old)) }
    ensures state_after { state.new ≡ state_of (loading shape step (length store.old)) state.old }
    ensures store_after { at store.new ≡
        set_up_store shape.filter (columns shape) shape.levels (set_up_question shape step (length store.old)) (at store.old) }
{
    match Loader::set_up(shape, step, store) {
        Ok(l) => {
            loader_state::pack_loader(l, state);
            0
        }
        Err(why) => why.number() as u32,
    }
}

// What the loader wants: 0 bytes, 1 Draw, 2 Done, 3 Ended. The question is 1.
pub fn terrain_load_want(state: &[u64; 32], want: &mut u32) -> u32
    ensures value { result ≡ number (wanting state.now) }
    ensures want_after { want.new ≡ want_of (wanting state.now) want.old }
{
    if !loader_state::is_loader(state) {
        return 1;
    }
    let l = loader_state::unpack_loader(state);
    match l.want() {
        Ok(LoaderWant::Bytes) => {
            *want = 0;
            0
        }
        Ok(LoaderWant::Draw) => {
            *want = 1;
            0
        }
        Ok(LoaderWant::Done) => {
            *want = 2;
            0
        }
        Ok(LoaderWant::Ended) => {
            *want = 3;
            0
        }
        Err(why) => why.number() as u32,
    }
}

// The next bytes of the file. The questions are 1, 5, 9 and 8; then, byte by byte, 22, 7 and 14.
pub fn terrain_load_take(
    state: &mut [u64; 32],
    store: &mut [i32],
    row: &mut [i32],
    run: &[u8],
    taken: &mut usize,
) -> u32
    ensures value { result ≡
        taken_number
        (taking state.old (length store.old) (length row.old) (at store.old)
        (at row.old) run.now) }
    ensures state_after { state.new ≡
        loaded_words
        (taking state.old (length store.old) (length row.old) (at store.old)
        (at row.old) run.now) state.old }
    ensures store_after { at store.new ≡
        taking_store state.old (length store.old) (length row.old) (at store.old)
        (at row.old) run.now }
    ensures row_after { at row.new ≡
        taking_row state.old (length store.old) (length row.old) (at store.old)
        (at row.old) run.now }
    ensures taken_after { taken.new ≡
        taken_of
        (taking state.old (length store.old) (length row.old) (at store.old)
        (at row.old) run.now) taken.old }
{
    if !loader_state::is_loader(state) {
        return 1;
    }
    let l = loader_state::unpack_loader(state);
    loader_state::pack_loaded(l.take(store, row, run), state, taken)
}

// A height row drawn, or Nothing. The questions are 1, 5, 9, 12 and 14; 14 leaves the ended loader.
pub fn terrain_load_draw(
    state: &mut [u64; 32],
    store: &mut [i32],
    out: &mut [u16],
    drawn: &mut usize,
) -> u32
    ensures value { result ≡ drawn_number (drawing state.old (length store.old) (at store.old) (length out.old)) }
    ensures state_after { state.new ≡
        drawn_words (drawing state.old (length store.old) (at store.old) (length out.old))
        state.old }
    ensures store_after { at store.new ≡
        drawing_store state.old (length store.old) (at store.old) (length out.old) }
    ensures out_after { heights_at out.new ≡
        drawing_area state.old (length store.old) (at store.old) (length out.old)
        (heights_at out.old) }
    ensures drawn_after { drawn.new ≡
        drawn_of (drawing state.old (length store.old) (at store.old) (length out.old)) drawn.old }
{
    if !loader_state::is_loader(state) {
        return 1;
    }
    let l = loader_state::unpack_loader(state);
    loader_state::pack_loader_drawn(l.draw(store, out), state, drawn)
}
