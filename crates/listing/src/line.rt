// The line that is being written, part by part. A part is a few bytes that are written one after the other.
ghost use Rattle.std.specs.Prelude.{◌≡◌};
ghost use Rattle.listing.specs.Parts.{no_line, size_part, refused_part, head_part, done_part};

// Stays: `part` and `band` are numbers, since `part_text` and the contracts that cite it speak of every one.
#[derive(Clone, Copy)]
pub struct Line {
    // 0 nothing, 1 the line of W, H and L (length, row, level), 2 a refusal (its number in row), 3 level, band and row of a band row, 4 a value or
    // the line's end
    pub part: usize,
    pub level: usize,
    pub band: usize,
    pub row: usize,
    pub length: usize,
    // the value that is next
    pub value: usize,
    // bytes of the part that are written
    pub done: usize,
}

impl Line {
    pub fn none() -> Self
        ensures { result ≡ no_line }
    {
        Line {
            part: 0,
            level: 0,
            band: 0,
            row: 0,
            length: 0,
            value: 0,
            done: 0,
        }
    }

    pub fn size(width: usize, height: usize, levels: usize) -> Self
        ensures { result ≡ size_part width height levels }
    {
        Line {
            part: 1,
            level: levels,
            row: height,
            length: width,
            ..Line::none()
        }
    }

    pub fn refused(number: usize) -> Self
        ensures { result ≡ refused_part number }
    {
        Line {
            part: 2,
            row: number,
            ..Line::none()
        }
    }

    pub fn band_row(level: usize, band: usize, row: usize, length: usize) -> Self
        ensures { result ≡ head_part level band row length }
    {
        Line {
            part: 3,
            level,
            band,
            row,
            length,
            ..Line::none()
        }
    }

    // With so many bytes of its part written.
    pub fn with_done(self, done: usize) -> Self
        ensures { result ≡ done_part self done }
    {
        Line { done, ..self }
    }
}
