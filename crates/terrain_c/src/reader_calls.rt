// The reader's calls. The state is the caller's array: `reader_state` unpacks and packs it.
ghost use Rattle.std.specs.Prelude.{◌≡◌, length};
ghost use Rattle.numbers.specs.Signal.{at};
ghost use Rattle.areas.specs.Areas.{heights_at};
ghost use Rattle.lifting.specs.Grid.{side};
ghost use Rattle.wavelet.specs.Shape.{columns, rows};
ghost use Rattle.reader.specs.Questions.{set_up_question, stop_question, tolerant_question};
ghost use Rattle.reader.specs.Answers.{number};
ghost use Rattle.reader.specs.Calls.{set_up_reply, set_up_store};
ghost use Rattle.calls.specs.Lists.{seen};
ghost use Rattle.reader.specs.Runs.{progress, left_by};
ghost use Rattle.states.specs.ReaderAnswers.{count_of, ran_number, ran_words, counts_of};
ghost use Rattle.terrain.specs.ReaderCalls.{state_of, stopping, tolerating, sizing, size_number, columns_of, rows_of, wanting};
ghost use Rattle.terrain.specs.ReaderCalls.{running, want_of, feeding, feeding_store, drawing, drawing_store, drawing_area, state_drawn};

use wavelet::shape::Shape;

// A fresh reader. The questions are 2, 3, 18, 4 and 5.
#[unsafe(no_mangle)]
pub extern "C" fn terrain_reader_set_up(
    state: &mut [u64; 16],
    shape: Shape,
    store: &mut [i32],
) -> u32
    ensures value { result ≡
        number
        (set_up_reply shape.filter (columns shape) (rows shape) shape.levels
        (set_up_question shape.filter (columns shape) (rows shape) shape.levels (length store.old))) }
    ensures state_after { state.new ≡
        state_of
        (set_up_reply shape.filter (columns shape) (rows shape) shape.levels
        (set_up_question shape.filter (columns shape) (rows shape) shape.levels (length store.old))) state.old }
    ensures store_after { at store.new ≡
        set_up_store shape.filter (columns shape) shape.levels
        (set_up_question shape.filter (columns shape) (rows shape) shape.levels (length store.old)) (at store.old) }
{
    terrain::reader_calls::terrain_reader_set_up(state, shape, store)
}

// A fresh reader with a stop. The questions are 2, 3, 18, 4, 17 and 5.
#[unsafe(no_mangle)]
pub extern "C" fn terrain_reader_set_up_at(
    state: &mut [u64; 16],
    shape: Shape,
    stop: usize,
    store: &mut [i32],
) -> u32
    ensures value { result ≡ number (stopping shape.filter (columns shape) (rows shape) shape.levels stop (length store.old)) }
    ensures state_after { state.new ≡
        state_of (stopping shape.filter (columns shape) (rows shape) shape.levels stop (length store.old)) state.old }
    ensures store_after { at store.new ≡
        set_up_store shape.filter (columns shape) shape.levels
        (stop_question shape.filter (columns shape) (rows shape) shape.levels stop (length store.old)) (at store.old) }
{
    terrain::reader_calls::terrain_reader_set_up_at(state, shape, stop, store)
}

// A fresh tolerant reader. The questions are 2, 3, 4 and 5.
#[unsafe(no_mangle)]
pub extern "C" fn terrain_tolerant_set_up(
    state: &mut [u64; 16],
    width: usize,
    height: usize,
    levels: usize,
    store: &mut [i32],
) -> u32
    ensures value { result ≡ number (tolerating width height levels (length store.old)) }
    ensures state_after { state.new ≡ state_of (tolerating width height levels (length store.old)) state.old }
    ensures store_after { at store.new ≡
        set_up_store 0 (side 0 width) levels (tolerant_question width height levels (length store.old)) (at store.old) }
{
    terrain::reader_calls::terrain_tolerant_set_up(state, width, height, levels, store)
}

// The columns and rows of a level's low-low part. The questions are 2, 3, 18, 4 and 17.
#[unsafe(no_mangle)]
pub extern "C" fn terrain_level_size(
    shape: Shape,
    level: usize,
    across: &mut usize,
    down: &mut usize,
) -> u32
    ensures value { result ≡ size_number (sizing shape.filter (columns shape) (rows shape) shape.levels level) }
    ensures across_after { across.new ≡ columns_of (sizing shape.filter (columns shape) (rows shape) shape.levels level) across.old }
    ensures down_after { down.new ≡ rows_of (sizing shape.filter (columns shape) (rows shape) shape.levels level) down.old }
{
    terrain::reader_calls::terrain_level_size(shape, level, across, down)
}

// What the reader wants. The question is 1.
#[unsafe(no_mangle)]
pub extern "C" fn terrain_reader_want(state: &[u64; 16], want: &mut [u64; 5]) -> u32
    ensures value { result ≡ number (wanting state.now) }
    ensures want_after { want.new ≡ want_of (wanting state.now) want.old }
{
    terrain::reader_calls::terrain_reader_want(state, want)
}

// A band row fed. The questions are 1, 5, 9, 8, 13, 7 and 14; 14 leaves the ended reader.
#[unsafe(no_mangle)]
pub extern "C" fn terrain_reader_feed(state: &mut [u64; 16], store: &mut [i32], run: &[i32]) -> u32
    ensures value { result ≡
        number
        (feeding state.old (length store.old) (at store.old) (length run.now) (at run.now)) }
    ensures state_after { state.new ≡
        state_of
        (feeding state.old (length store.old) (at store.old) (length run.now)
        (at run.now)) state.old }
    ensures store_after { at store.new ≡
        feeding_store state.old (length store.old) (at store.old) (length run.now) (at run.now) }
{
    terrain::reader_calls::terrain_reader_feed(state, store, run)
}

// A height row drawn, or Nothing. The questions are 1, 5, 9, 12 and 14; 14 leaves the ended reader.
#[unsafe(no_mangle)]
pub extern "C" fn terrain_reader_draw(
    state: &mut [u64; 16],
    store: &mut [i32],
    out: &mut [u16],
    drawn: &mut usize,
) -> u32
    ensures value { result ≡ number (drawing state.old (length store.old) (at store.old) (length out.old)) }
    ensures state_after { state.new ≡
        state_drawn (drawing state.old (length store.old) (at store.old) (length out.old))
        state.old }
    ensures store_after { at store.new ≡
        drawing_store state.old (length store.old) (at store.old) (length out.old) }
    ensures out_after { heights_at out.new ≡
        drawing_area state.old (length store.old) (at store.old) (length out.old)
        (heights_at out.old) }
    ensures drawn_after { drawn.new ≡
        count_of (drawing state.old (length store.old) (at store.old) (length out.old)) drawn.old }
{
    terrain::reader_calls::terrain_reader_draw(state, store, out, drawn)
}

// Many rows at once. The questions are 1, 5, 9 and, where nothing could be done, 12, 8, 13 and 7; 14 leaves the ended reader.
#[unsafe(no_mangle)]
pub extern "C" fn terrain_reader_run(
    state: &mut [u64; 16],
    store: &mut [i32],
    run: &[i32],
    out: &mut [u16],
    counts: &mut [u64; 2],
) -> u32
    ensures value { result ≡ ran_number (seen progress (running state.old (length store.old) (length run.now)
        (at run.now)
        (length out.old) (at store.old) (heights_at out.old))) }
    ensures state_after { state.new ≡ ran_words (seen progress (running state.old (length store.old) (length run.now)
        (at run.now)
        (length out.old) (at store.old) (heights_at out.old))) state.old }
    ensures store_after { at store.new ≡ left_by (λ p. p.world.store) (at store.old)
        (running state.old (length store.old) (length run.now) (at run.now)
        (length out.old) (at store.old) (heights_at out.old)) }
    ensures out_after { heights_at out.new ≡ left_by (λ p. p.area) (heights_at out.old)
        (running state.old (length store.old) (length run.now) (at run.now)
        (length out.old) (at store.old) (heights_at out.old)) }
    ensures counts_after { counts.new ≡ counts_of (seen progress (running state.old (length store.old)
        (length run.now) (at run.now)
        (length out.old) (at store.old) (heights_at out.old))) counts.old }
{
    terrain::reader_calls::terrain_reader_run(state, store, run, out, counts)
}
