// The header of a ground file, from the numbers of the reader that reads it. The module is private, as `widths` is.
ghost use Rattle.std.specs.Prelude.{◌≡◌, ◌<◌, get_or};
ghost use Rattle.ground_file.specs.File.{header_of};
ghost use Rattle.ground_loader.specs.Loader.{shape_of};

use reader::Reader;

// Stays: the saver's bytes a second time, since a reader's numbers are wider than a shape's, and one function of seven numbers is no plainer.
// A byte of it.
pub fn byte_at(s: Reader, step: usize, place: usize) -> u8
    requires { (place < 24) × (s.filter < 256) × (s.levels < 256) × (step < 256) }
    ensures { result ≡ get_or (header_of (shape_of s) step) place 0 }
{
    let header: [u8; 24] = [
        137,
        71,
        78,
        68,
        13,
        10,
        26,
        10,
        1,
        s.filter as u8,
        s.levels as u8,
        step as u8,
        (s.x % 256) as u8,
        (s.x / 256 % 256) as u8,
        (s.y % 256) as u8,
        (s.y / 256 % 256) as u8,
        (s.width % 256) as u8,
        (s.width / 256 % 256) as u8,
        (s.height % 256) as u8,
        (s.height / 256 % 256) as u8,
        (s.height / 256 / 256 % 256) as u8,
        (s.height / 256 / 256 / 256 % 256) as u8,
        0,
        0,
    ];
    header[place]
}
