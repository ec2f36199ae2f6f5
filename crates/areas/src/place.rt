// Eight numbers read and put. The module is private: only the loops of this crate, which meet what is required, can call it.
ghost use Rattle.std.specs.Prelude.{◌≡◌, ℕ, ◌+◌, ◌≤◌, ◌<◌, length};
ghost use Rattle.numbers.specs.Signal.{at, spliced};
ghost use Rattle.areas.specs.Areas.{in_turn};

// The four numbers at place a and the four at place b, in turn.
pub fn eight_at(area: &[i32], a: usize, b: usize) -> [i32; 8]
    requires { (a + 4 ≤ length area.now) × (b + 4 ≤ length area.now) }
    ensures { (j : ℕ) → j < 8 → at result j ≡ in_turn a b (at area.now) j }
{
    let mut v = [0; 8];
    for i in 0..4 {
        v[2 * i] = area[a + i];
        v[2 * i + 1] = area[b + i];
    }
    v
}

// Eight numbers to the places from p on.
pub fn put_eight(area: &mut [i32], p: usize, eight: [i32; 8])
    requires { p + 8 ≤ length area.old }
    ensures { at area.new ≡ spliced p 8 (at eight) (at area.old) }
{
    for i in 0..8 {
        area[p + i] = eight[i];
    }
}
