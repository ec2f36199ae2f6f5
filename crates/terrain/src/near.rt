// The nearest change of a cell. What the call says is `nearest_change`'s: the questions, and the change that they let through.
ghost use Rattle.std.specs.Prelude.{◌≡◌, length, eqb};
ghost use Rattle.numbers.specs.Signal.{pick};
ghost use Rattle.nearest_change.specs.NearestChange.{ground_of, IsNearest};
ghost use Rattle.nearest_change.specs.Calls.{nearest_question, change_in};

// The nearest change that alters a cell of the level-1 LL: row, column and new height. The questions are 2, 3, 5 and 6; a no leaves all three numbers.
pub fn terrain_nearest_change(
    heights: &[u16],
    width: usize,
    height: usize,
    row: usize,
    column: usize,
    change: &mut [u64; 3],
) -> u32
    ensures value { result ≡ nearest_question (length heights.now) width height row column }
    ensures pick { pick (eqb result 0) (IsNearest width height (ground_of width heights.now) row column (change_in change.new))
        (change.new ≡ change.old) }
{
    match nearest_change::find(heights, width, height, row, column) {
        Ok(c) => {
            *change = [c.row as u64, c.column as u64, c.height as u64];
            0
        }
        Err(why) => why.number() as u32,
    }
}
