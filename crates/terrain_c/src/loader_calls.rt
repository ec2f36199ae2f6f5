// The loader's calls. The state is the caller's array: `loader_state` unpacks and packs it.
ghost use Rattle.std.specs.Prelude.{◌≡◌, length};
ghost use Rattle.numbers.specs.Signal.{at};
ghost use Rattle.areas.specs.Areas.{heights_at};
ghost use Rattle.wavelet.specs.Shape.{columns};
ghost use Rattle.reader.specs.Calls.{set_up_store};
ghost use Rattle.ground_loader.specs.Loader.{set_up_question};
ghost use Rattle.states.specs.LoaderAnswers.{taken_number, loaded_words, taken_of, drawn_number, drawn_words, drawn_of};
ghost use Rattle.terrain.specs.LoaderCalls.{number, loading, state_of, wanting, want_of, taking, taking_store, taking_row};
ghost use Rattle.terrain.specs.LoaderCalls.{drawing, drawing_store, drawing_area};

use wavelet::shape::Shape;

// A fresh loader of a file with this shape and step. The questions are 2, 3, 18, 4, 20, 22 and 5.
#[unsafe(no_mangle)]
pub extern "C" fn terrain_load_set_up(
    state: &mut [u64; 32],
    shape: Shape,
    step: usize,
    store: &mut [i32],
) -> u32
    ensures value { result ≡ number (loading shape step (length store.old)) }
    ensures state_after { state.new ≡ state_of (loading shape step (length store.old)) state.old }
    ensures store_after { at store.new ≡
        set_up_store shape.filter (columns shape) shape.levels (set_up_question shape step (length store.old)) (at store.old) }
{
    terrain::loader_calls::terrain_load_set_up(state, shape, step, store)
}

// What the loader wants: 0 bytes, 1 Draw, 2 Done, 3 Ended. The question is 1.
#[unsafe(no_mangle)]
pub extern "C" fn terrain_load_want(state: &[u64; 32], want: &mut u32) -> u32
    ensures value { result ≡ number (wanting state.now) }
    ensures want_after { want.new ≡ want_of (wanting state.now) want.old }
{
    terrain::loader_calls::terrain_load_want(state, want)
}

// The next bytes of the file. The questions are 1, 5, 9 and 8; then, byte by byte, 22, 7 and 14.
#[unsafe(no_mangle)]
pub extern "C" fn terrain_load_take(
    state: &mut [u64; 32],
    store: &mut [i32],
    row: &mut [i32],
    run: &[u8],
    taken: &mut usize,
) -> u32
    ensures value { result ≡
        taken_number
        (taking state.old (length store.old) (length row.old) (at store.old)
        (at row.old) run.now) }
    ensures state_after { state.new ≡
        loaded_words
        (taking state.old (length store.old) (length row.old) (at store.old)
        (at row.old) run.now) state.old }
    ensures store_after { at store.new ≡
        taking_store state.old (length store.old) (length row.old) (at store.old)
        (at row.old) run.now }
    ensures row_after { at row.new ≡
        taking_row state.old (length store.old) (length row.old) (at store.old)
        (at row.old) run.now }
    ensures taken_after { taken.new ≡
        taken_of
        (taking state.old (length store.old) (length row.old) (at store.old)
        (at row.old) run.now) taken.old }
{
    terrain::loader_calls::terrain_load_take(state, store, row, run, taken)
}

// A height row drawn, or Nothing. The questions are 1, 5, 9, 12 and 14; 14 leaves the ended loader.
#[unsafe(no_mangle)]
pub extern "C" fn terrain_load_draw(
    state: &mut [u64; 32],
    store: &mut [i32],
    out: &mut [u16],
    drawn: &mut usize,
) -> u32
    ensures value { result ≡ drawn_number (drawing state.old (length store.old) (at store.old) (length out.old)) }
    ensures state_after { state.new ≡
        drawn_words (drawing state.old (length store.old) (at store.old) (length out.old))
        state.old }
    ensures store_after { at store.new ≡
        drawing_store state.old (length store.old) (at store.old) (length out.old) }
    ensures out_after { heights_at out.new ≡
        drawing_area state.old (length store.old) (at store.old) (length out.old)
        (heights_at out.old) }
    ensures drawn_after { drawn.new ≡
        drawn_of (drawing state.old (length store.old) (at store.old) (length out.old)) drawn.old }
{
    terrain::loader_calls::terrain_load_draw(state, store, out, drawn)
}
