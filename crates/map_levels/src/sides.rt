// Where a level lies on the grid. Its columns and its rows go together through every call, so they are one value.
ghost use Rattle.std.specs.Prelude.{◌≡◌};
ghost use Rattle.lifting.specs.Line.{lo};
ghost use Rattle.lifting.specs.Grid.{count};
ghost use Rattle.wavelet.specs.Levels.{next};
ghost use Rattle.map_levels.specs.Sides.{columns, rows};

use wavelet::shape::Shape;
use wavelet::sizes;

// The columns and the rows of a level: where each start on the grid, and how many there are.
#[derive(Clone, Copy)]
pub struct Sides {
    pub x: usize,
    pub width: usize,
    pub y: usize,
    pub height: usize,
}

impl Sides {
    // Those of a whole map.
    pub fn of(shape: Shape) -> Sides
        ensures x { result.x ≡ shape.x }
        ensures width { result.width ≡ shape.width }
        ensures y { result.y ≡ shape.y }
        ensures height { result.height ≡ shape.height }
    {
        Sides {
            x: shape.x as usize,
            width: shape.width,
            y: shape.y as usize,
            height: shape.height,
        }
    }

    // Those of the low-low part, which the next level is made of.
    pub fn low(self) -> Sides
        ensures columns { columns result ≡ next (columns self) }
        ensures rows { rows result ≡ next (rows self) }
        ensures width { result.width ≡ count lo (columns self) }
        ensures height { result.height ≡ count lo (rows self) }
    {
        Sides {
            x: sizes::next_start(self.x),
            width: sizes::low_count(self.x, self.width),
            y: sizes::next_start(self.y),
            height: sizes::low_count(self.y, self.height),
        }
    }
}
