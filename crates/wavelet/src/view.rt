// The view of one band row: a stretch of the caller's plane, not a copy.
ghost use Rattle.std.specs.Prelude.{◌≡◌, ◌≤◌, ◌<◌, ◌*◌, ◌^◌, length};
ghost use Rattle.lifting.specs.Grid.{side};
ghost use Rattle.wavelet.specs.Limits.{max_width, max_height, max_levels};
ghost use Rattle.wavelet.specs.Levels.{side_at};
ghost use Rattle.wavelet.specs.Shape.{columns, rows};
ghost use Rattle.wavelet.specs.ViewCall.{view_question, view_row, view_place, address_of};
ghost use Rattle.refusal.specs.Numbers.{answer};
ghost use Rattle.wavelet.specs.Span.{of_span, kept_span, stretch_of, span_of};

use crate::limits;
use crate::shape::Shape;
use refusal::Refusal;

// Where a band row stands in its plane.
#[derive(Clone, Copy)]
pub struct Span {
    pub start: usize,
    pub length: usize,
}

// A row of a band that has `rows` rows, each of `length` numbers.
fn keep(row: usize, rows: usize, start: usize, length: usize) -> Result<Span, Refusal>
    ensures { of_span result ≡ kept_span row rows start length }
{
    if 0 < length {
        if row < rows {
            return Ok(Span { start, length });
        }
    }
    Err(Refusal::NoBandRow)
}

// How long level `level` of a side is, within the limits: both ends are halved up from level to level, each to ⌈end / 2^level⌉.
fn size_within(level: usize, start: usize, n: usize) -> usize
    requires { (level ≤ max_levels) × (start < 2 ^ 16) × (n < 2 ^ 32) }
    ensures { result ≡ (side_at level (side start n)).length }
{
    let up = (1 << level) - 1;
    ((start + n + up) >> level) - ((start + up) >> level)
}

// Question 6, and the stretch: of a plane within the limits.
fn stretch(shape: Shape, level: usize, band: usize, row: usize) -> Result<Span, Refusal>
    requires { (shape.width ≤ max_width) × (shape.height ≤ max_height) × (shape.levels ≤ max_levels) }
    ensures { of_span result ≡ stretch_of (columns shape) (rows shape) shape.levels level band row }
{
    let width = shape.width;
    let height = shape.height;
    let levels = shape.levels;
    let x = shape.x as usize;
    let y = shape.y as usize;
    if !limits::is_within(level, levels) {
        return Err(Refusal::NoBandRow);
    }
    if height <= row {
        return Err(Refusal::NoBandRow);
    }
    let low = size_within(level, x, width);
    let right = size_within(level - 1, x, width) - low;
    let top = size_within(level, y, height);
    let bottom = size_within(level - 1, y, height) - top;
    match band {
        0 => {
            if level < levels {
                return Err(Refusal::NoBandRow);
            }
            keep(row, top, row * width, low)
        }
        1 => keep(row, top, row * width + low, right),
        2 => keep(row, bottom, (top + row) * width, low),
        3 => keep(row, bottom, (top + row) * width + low, right),
        _ => Err(Refusal::NoBandRow),
    }
}

// Where the named band row stands in a plane of `length` numbers. The questions are 2, 3, 4, 5 and 6.
pub fn locate(
    length: usize,
    shape: Shape,
    level: usize,
    band: usize,
    row: usize,
) -> Result<Span, Refusal>
    ensures { of_span result ≡ span_of length (columns shape) (rows shape) shape.levels level band row }
{
    limits::size_question(shape.width, shape.height, shape.levels)?;
    if length < shape.width * shape.height {
        return Err(Refusal::AreaShort);
    }
    stretch(shape, level, band, row)
}

// Whether a question turns the view of this band row away.
pub fn band_row_question(
    plane: &[i32],
    shape: Shape,
    level: usize,
    band: usize,
    row: usize,
) -> Result<(), Refusal>
    ensures { answer result ≡ view_question (length plane.now) (columns shape) (rows shape) shape.levels level band row }
{
    locate(plane.len(), shape, level, band, row)?;
    Ok(())
}

// The band row, or the empty stretch where a question turns the view away.
pub fn band_row<'a>(
    plane: &'a [i32],
    shape: Shape,
    level: usize,
    band: usize,
    row: usize,
) -> &'a [i32]
    ensures result_value { result.now ≡ view_row plane.now (columns shape) (rows shape) shape.levels level band row }
    ensures ref_ptr_value { result.ref_ptr ≡
        address_of plane.entry.ref_ptr (view_place (length plane.now) (columns shape) (rows shape) shape.levels level band row) }
{
    match locate(plane.len(), shape, level, band, row) {
        Ok(span) => &plane[span.start..span.start + span.length],
        Err(_) => &plane[0..0],
    }
}
