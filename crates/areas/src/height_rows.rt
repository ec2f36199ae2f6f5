// A height, u16, of a number.
ghost use Rattle.std.specs.Prelude.{◌≡◌, pos};
ghost use Rattle.areas.specs.Areas.{height16};

// A value modulo 65,536.
pub fn height_of(v: i32) -> u16
    ensures { pos result ≡ height16 v }
{
    (v - 65536 * (v >> 16)) as u16
}
