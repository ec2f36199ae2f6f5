// The widths of a group's parts. The module is private: only this crate, which meets what is required, can call it.
ghost use Rattle.std.specs.Prelude.{◌≡◌, [], ◌∷◌, ◌^◌, ◌≤◌, ◌<◌, eqb};
ghost use Rattle.ground_file.specs.Groups.{width_of, code_of};

use ground_file::widths::width_of;

// Is a code that of the smallest width which holds a number that its width holds? The width before it does not hold that.
pub fn is_smallest(code: usize, most: u64) -> bool
    requires { (code ≤ 15) × (most < 2 ^ width_of code) }
    ensures { result ≡ eqb (code_of (most ∷ [])) code }
{
    if code == 0 {
        return true;
    }
    0 < (most >> width_of(code - 1))
}
