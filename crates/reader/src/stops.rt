// A stop: the size of a level's low-low part, and the fresh reader of one. Document 02, Q-6.
ghost use Rattle.std.specs.Prelude.{◌≡◌, true, ◌≤◌, ◌<◌, ◌^◌};
ghost use Rattle.lifting.specs.Grid.{side};
ghost use Rattle.wavelet.specs.Shape as shape;
ghost use Rattle.filters.specs.Figures.{store_by, streamable};
ghost use Rattle.reader.specs.Questions.{level_question};
ghost use Rattle.reader.specs.Stops.{last_at, fresh_at, of_level_size, size_reply};

use crate::{Reader, questions};
use refusal::Refusal;
use wavelet::shape::Shape;
use wavelet::sizes;

// The columns and rows of the low-low part of a level.
#[derive(Clone, Copy)]
pub struct LevelSize {
    pub columns: usize,
    pub rows: usize,
}

// The questions are 2, 3, 18, 4 and 17.
pub fn level_size(map: Shape, level: usize) -> Result<LevelSize, Refusal>
    ensures { of_level_size result ≡
        size_reply (shape.columns map) (shape.rows map) level (level_question map.filter map.width map.height map.levels level) }
{
    questions::size_question(map)?;
    questions::level_question(map, level)?;
    Ok(LevelSize {
        columns: sizes::size_at(level, map.x as usize, map.width),
        rows: sizes::size_at(level, map.y as usize, map.height),
    })
}

// The reader of a low-low part with no level to work out. One that is empty has no row, nor has one without a column.
fn last_at(
    filter: usize,
    x: usize,
    width: usize,
    y: usize,
    height: usize,
    stop: usize,
    spare: usize,
) -> Reader
    ensures { result ≡ last_at filter stop spare (side x width) (side y height) }
{
    let rows = if width == 0 { 0 } else { height };
    Reader {
        width,
        height: rows,
        levels: 0,
        x,
        y,
        drawn: 0,
        level: 0,
        back: 0,
        band: 0,
        ended: false,
        filter,
        stop,
        spare,
        admission: 0,
    }
}

// The fresh reader of a map's low-low part of level `stop`; the map's line store has n numbers.
pub fn reader_at(
    filter: usize,
    levels: usize,
    x: usize,
    width: usize,
    y: usize,
    height: usize,
    stop: usize,
    n: usize,
) -> Reader
    requires { (streamable filter (side x width) levels ≡ true) × (height < 2 ^ 32) × (x ≤ 2 ^ 16) × (y ≤ 2 ^ 16) × (stop ≤ levels) ×
        (n ≡ store_by filter (side x width) levels) }
    ensures { result ≡ fresh_at filter (side x width) (side y height) levels stop }
{
    let across = sizes::start_at(stop, x);
    let w = sizes::size_at(stop, x, width);
    let down = sizes::start_at(stop, y);
    let h = sizes::size_at(stop, y, height);
    if stop == levels {
        return last_at(filter, across, w, down, h, stop, n);
    }
    if (w == 0) | (h == 0) {
        return last_at(filter, across, w, down, h, stop, n);
    }
    let own = filters::store_length(filter, w, across, levels - stop);
    Reader::begun(0, filter, levels - stop, across, w, down, h, stop, n - own)
}
