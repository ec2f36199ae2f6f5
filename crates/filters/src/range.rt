// The range of a level of the 9/7.
ghost use Rattle.std.specs.Prelude.{◌≡◌, min, pos};
ghost use Rattle.wavelet.specs.Limits.{range};
ghost use Rattle.nine_seven.specs.NineSevenFilter.{nine_seven_filter};
ghost use Rattle.filters.specs.Range.{max_levels};

use wavelet::limits;

// The most levels. A contract that names a constant follows an edit of it, so it is pinned to the definition's number.
pub const MAX_LEVELS: usize = 4;

pub fn max_levels() -> usize
    ensures { result ≡ max_levels }
{
    MAX_LEVELS
}

// The largest magnitude of a coefficient of a level, 65,535 × 6^level; past the last level, that of the last.
pub fn range_of(level: usize) -> i32
    ensures { result ≡ pos (range nine_seven_filter (min level max_levels)) }
{
    let mut most = limits::MAX_SAMPLE;
    for _ in 0..level.min(MAX_LEVELS) {
        most = 6 * most;
    }
    most
}
