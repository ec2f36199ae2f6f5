// How large a level may be on the way back.
ghost use Rattle.std.specs.Prelude.{◌≡◌};
ghost use Rattle.level.specs.Rebuilding.{widest, tallest};

// The longest row and the most rows of a level: so small that no place in memory overflows. A contract that names a constant follows an edit of it, so each is
// pinned to the definition's number.
pub const WIDEST: usize = 65536;

pub const TALLEST: usize = 4294967295;

pub fn most_columns() -> usize
    ensures { result ≡ widest }
{
    WIDEST
}

pub fn most_rows() -> usize
    ensures { result ≡ tallest }
{
    TALLEST
}
