// The writer's calls. The state is the caller's array: `writer_state` unpacks and packs it.
ghost use Rattle.std.specs.Prelude.{◌≡◌, length};
ghost use Rattle.numbers.specs.Signal.{at, pick};
ghost use Rattle.wavelet.specs.Shape.{columns};
ghost use Rattle.filters.specs.Figures.{store_by, writer_store_by, streamable};
ghost use Rattle.calls.specs.Lists.{seen};
ghost use Rattle.writer.specs.Answers.{of_set_up, of_look};
ghost use Rattle.writer.specs.Calls.{set_up_reply, set_up_store};
ghost use Rattle.writer.specs.Runs.{progress, left_by};
ghost use Rattle.states.specs.WriterAnswers.{number, taken_of, row_of, ran_words, counts_of};
ghost use Rattle.terrain.specs.WriterCalls.{state_of, offered, offered_store, state_took, drawn, drawn_store, drawn_area, state_handed};
ghost use Rattle.terrain.specs.WriterCalls.{waiting, look_of, finished, finished_store, ran};

use wavelet::shape::Shape;

// The numbers that the line store of a writer needs, more than a reader's; 0 where set-up would give 2, 18 or 4. The height does not count.
#[unsafe(no_mangle)]
pub extern "C" fn terrain_store_length(shape: Shape) -> usize
    ensures { result ≡
        pick (streamable shape.filter (columns shape) shape.levels) (writer_store_by shape.filter (columns shape) shape.levels) 0 }
{
    terrain::writer_calls::terrain_store_length(shape)
}

// Those that a reader's needs.
#[unsafe(no_mangle)]
pub extern "C" fn terrain_reader_store_length(shape: Shape) -> usize
    ensures { result ≡ pick (streamable shape.filter (columns shape) shape.levels) (store_by shape.filter (columns shape) shape.levels) 0 }
{
    terrain::writer_calls::terrain_reader_store_length(shape)
}

// A fresh writer. The questions are 2, 18, 4 and 5. The height is not read.
#[unsafe(no_mangle)]
pub extern "C" fn terrain_writer_set_up(
    state: &mut [u64; 16],
    shape: Shape,
    store: &mut [i32],
) -> u32
    ensures value { result ≡ number (set_up_reply shape.filter (columns shape) shape.y shape.levels (length store.old)) }
    ensures state_after { state.new ≡
        state_of (set_up_reply shape.filter (columns shape) shape.y shape.levels (length store.old)) state.old }
    ensures store_after { at store.new ≡
        set_up_store shape.filter (columns shape) shape.levels (length store.old) (at store.old) }
{
    terrain::writer_calls::terrain_writer_set_up(state, shape, store)
}

// Heights offered. The questions are 1, 5, 9 and 10.
#[unsafe(no_mangle)]
pub extern "C" fn terrain_writer_offer(
    state: &mut [u64; 16],
    store: &mut [i32],
    run: &[u16],
    taken: &mut usize,
) -> u32
    ensures value { result ≡ number (offered state.old (length store.old) run.now (at store.old)) }
    ensures state_after { state.new ≡ state_took (offered state.old (length store.old) run.now (at store.old))
        state.old }
    ensures store_after { at store.new ≡ offered_store state.old (length store.old) run.now (at store.old) }
    ensures taken_after { taken.new ≡ taken_of (offered state.old (length store.old) run.now (at store.old))
        taken.old }
{
    terrain::writer_calls::terrain_writer_offer(state, store, run, taken)
}

// A band row drawn, or Nothing. The questions are 1, 5 and 12.
#[unsafe(no_mangle)]
pub extern "C" fn terrain_writer_draw(
    state: &mut [u64; 16],
    store: &mut [i32],
    out: &mut [i32],
    row: &mut [u64; 4],
) -> u32
    ensures value { result ≡ number (drawn state.old (length store.old) (length out.old) (at store.old)) }
    ensures state_after { state.new ≡ state_handed (drawn state.old (length store.old) (length out.old)
        (at store.old)) state.old }
    ensures store_after { at store.new ≡ drawn_store state.old (length store.old) (length out.old)
        (at store.old) }
    ensures out_after { at out.new ≡ drawn_area state.old (length store.old) (length out.old) (at store.old)
        (at out.old) }
    ensures row_after { row.new ≡ row_of (drawn state.old (length store.old) (length out.old) (at store.old))
        row.old }
{
    terrain::writer_calls::terrain_writer_draw(state, store, out, row)
}

// A look at the band row that waits, for the next draw; level 0 where none does. The question is 1.
#[unsafe(no_mangle)]
pub extern "C" fn terrain_writer_waits(state: &[u64; 16], row: &mut [u64; 4]) -> u32
    ensures value { result ≡ number (waiting state.now) }
    ensures row_after { row.new ≡ look_of (waiting state.now) row.old }
{
    terrain::writer_calls::terrain_writer_waits(state, row)
}

// The map finished. The questions are 1, 5, 9, 8 and 11.
#[unsafe(no_mangle)]
pub extern "C" fn terrain_writer_finish(state: &mut [u64; 16], store: &mut [i32]) -> u32
    ensures value { result ≡ number (finished state.old (length store.old) (at store.old)) }
    ensures state_after { state.new ≡ state_of (finished state.old (length store.old) (at store.old))
        state.old }
    ensures store_after { at store.new ≡ finished_store state.old (length store.old) (at store.old) }
{
    terrain::writer_calls::terrain_writer_finish(state, store)
}

// Many rows at once. The questions are 1, 5, 9, 12 and 10, the last two where nothing could be done.
#[unsafe(no_mangle)]
pub extern "C" fn terrain_writer_run(
    state: &mut [u64; 16],
    store: &mut [i32],
    heights: &[u16],
    out: &mut [i32],
    names: &mut [u64],
    counts: &mut [u64; 3],
) -> u32
    ensures value { result ≡ number (seen progress (ran state.old (length store.old) heights.now (length out.old)
        (at store.old) (at out.old) names.old)) }
    ensures state_after { state.new ≡ ran_words (seen progress (ran state.old (length store.old) heights.now
        (length out.old) (at store.old) (at out.old) names.old)) state.old }
    ensures store_after { at store.new ≡ left_by (λ p. p.world.store) (at store.old) (ran state.old
        (length store.old) heights.now (length out.old) (at store.old) (at out.old)
        names.old) }
    ensures out_after { at out.new ≡ left_by (λ p. p.area) (at out.old) (ran state.old (length store.old)
        heights.now (length out.old) (at store.old) (at out.old) names.old) }
    ensures names_after { names.new ≡ left_by (λ p. p.names) names.old (ran state.old (length store.old)
        heights.now (length out.old) (at store.old) (at out.old) names.old) }
    ensures counts_after { counts.new ≡ counts_of (seen progress (ran state.old (length store.old) heights.now
        (length out.old) (at store.old) (at out.old) names.old)) counts.old }
{
    terrain::writer_calls::terrain_writer_run(state, store, heights, out, names, counts)
}
