// What is read as a picture. A contract that names a constant follows an edit of it, so each is pinned to the definition's number.
ghost use Rattle.std.specs.Prelude.{◌≡◌, ◌*◌, Some, None};
ghost use Rattle.numbers.specs.Signal.{pick};
ghost use Rattle.pgm.specs.Limits.{max_picture_width, max_picture_height, up_to, size_fits};

pub const MAX_WIDTH: usize = 1025;

pub const MAX_HEIGHT: usize = 65535;

#[tactic(auto, unfolding(crate::specs::Limits::max_picture_width))]
pub fn max_width() -> usize
    ensures { result ≡ max_picture_width }
{
    MAX_WIDTH
}

#[tactic(auto, unfolding(crate::specs::Limits::max_picture_height))]
pub fn max_height() -> usize
    ensures { result ≡ max_picture_height }
{
    MAX_HEIGHT
}

// Is n from 1 to `most`?
#[tactic(auto, unfolding(crate::specs::Limits::up_to))]
pub fn is_up_to(n: usize, most: usize) -> bool
    ensures { result ≡ up_to most n }
{
    1 <= n && n <= most
}

// Question 15's limits: how many heights a picture has; none of one that is too large to be read or has no heights.
#[tactic(auto, unfolding(crate::specs::Limits::size_fits, crate::specs::Limits::up_to, crate::specs::Limits::max_picture_width, crate::specs::Limits::max_picture_height))]
pub fn cells(width: usize, height: usize) -> Option<usize>
    ensures { result ≡ pick (size_fits width height) (Some (width * height)) None }
{
    if is_up_to(width, max_width()) && is_up_to(height, max_height()) {
        Some(width * height)
    } else {
        None
    }
}
