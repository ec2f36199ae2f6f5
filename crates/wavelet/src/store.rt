// The widths of the levels, which the line store of a writer or a reader has so many rows of.
ghost use Rattle.std.specs.Prelude.{◌≡◌, ◌≤◌, leb};
ghost use Rattle.numbers.specs.Signal.{pick, both};
ghost use Rattle.lifting.specs.Grid.{side};
ghost use Rattle.wavelet.specs.Limits.{max_width, max_levels};
ghost use Rattle.wavelet.specs.Questions.{within};
ghost use Rattle.wavelet.specs.Store.{widths, any_widths};

use crate::{limits, sizes};

// W(0) + ... + W(levels − 1) of the columns from x on.
fn added(width: usize, x: usize, levels: usize) -> usize
    requires { (width ≤ max_width) × (levels ≤ max_levels) }
    ensures { result ≡ widths (side x width) levels }
{
    let mut sum = 0;
    let mut from = x;
    let mut length = width;
    for _ in 0..levels {
        sum += length;
        length = sizes::low_count(from, length);
        from = sizes::next_start(from);
    }
    sum
}

// The same for every width and number of levels within the limits; 0 for any other.
pub fn widths(width: usize, x: usize, levels: usize) -> usize
    ensures { result ≡ pick (both (within 1 max_width width) (within 1 max_levels levels)) (widths (side x width) levels) 0 }
{
    if !limits::is_within(width, limits::MAX_WIDTH) {
        return 0;
    }
    if !limits::is_within(levels, limits::MAX_LEVELS) {
        return 0;
    }
    added(width, x, levels)
}

// The widths of so many columns add up to no more, wherever they start, at any number of levels: so they are seldom added up. 0 past the limit.
pub fn any_widths(width: usize) -> usize
    ensures { result ≡ pick (leb width max_width) (any_widths width) 0 }
{
    if limits::MAX_WIDTH < width {
        return 0;
    }
    (31 * width + 49) / 16
}
