// The saver's calls: a plane as the bytes of a ground file (docs/FORMAT.md). The state is the caller's array of thirty-two numbers: `saver_state` unpacks and
// packs it.
ghost use Rattle.std.specs.Prelude.{◌≡◌, eqb};
ghost use Rattle.numbers.specs.Signal.{pick};
ghost use Rattle.ground_file.specs.Saving.{set_up_number, fresh};
ghost use Rattle.states.specs.SaverState.{saver_words};
ghost use Rattle.terrain.specs.SaverCalls.{Saving};

use ground_file::saver;
use states::saver_state;
use wavelet::shape::Shape;

// A saver that has written nothing. The questions are 2, 3, 18, 4, 20 and 22; a no leaves the array.
pub fn terrain_save_set_up(state: &mut [u64; 32], shape: Shape, step: usize) -> u32
    ensures value { result ≡ set_up_number shape step }
    ensures state_after { state.new ≡ pick (eqb result 0) (saver_words (fresh shape step)) state.old }
{
    if let Err(why) = saver::set_up_question(shape, step) {
        return why.number() as u32;
    }
    saver_state::pack_saver(saver::begin(shape, step), state);
    0
}

// The next bytes of the plane's file, as many as the area has room for. The questions are 1 and 5, and before a row is begun 7 and 22; a no leaves array, area
// and count.
pub fn terrain_save(
    state: &mut [u64; 32],
    plane: &[i32],
    out: &mut [u8],
    written: &mut usize,
) -> u32
    ensures { Saving plane.now state.old out.old written.old result
        state.new out.new written.new }
{
    if !saver_state::is_saver(state) {
        return 1;
    }
    let s = saver_state::unpack_saver(state);
    saver_state::pack_saved(saver::save(s, plane, out), state, written)
}
