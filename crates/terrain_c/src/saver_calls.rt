// The saver's calls: a plane as the bytes of a ground file (docs/FORMAT.md). The state is the caller's array of thirty-two numbers: `saver_state` unpacks and
// packs it.
ghost use Rattle.std.specs.Prelude.{◌≡◌, eqb};
ghost use Rattle.numbers.specs.Signal.{pick};
ghost use Rattle.ground_file.specs.Saving.{set_up_number, fresh};
ghost use Rattle.states.specs.SaverState.{saver_words};
ghost use Rattle.terrain.specs.SaverCalls.{Saving};

use wavelet::shape::Shape;

// A saver that has written nothing. The questions are 2, 3, 18, 4, 20 and 22; a no leaves the array.
#[unsafe(no_mangle)]
pub extern "C" fn terrain_save_set_up(state: &mut [u64; 32], shape: Shape, step: usize) -> u32
    ensures value { result ≡ set_up_number shape step }
    ensures state_after { state.new ≡ pick (eqb result 0) (saver_words (fresh shape step)) state.old }
{
    terrain::saver_calls::terrain_save_set_up(state, shape, step)
}

// The next bytes of the plane's file, as many as the area has room for. The questions are 1 and 5, and before a row is begun 7 and 22; a no leaves array, area
// and count.
#[unsafe(no_mangle)]
pub extern "C" fn terrain_save(
    state: &mut [u64; 32],
    plane: &[i32],
    out: &mut [u8],
    written: &mut usize,
) -> u32
    ensures { Saving plane.now state.old out.old written.old result
        state.new out.new written.new }
{
    terrain::saver_calls::terrain_save(state, plane, out, written)
}
