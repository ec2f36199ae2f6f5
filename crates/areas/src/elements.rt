// What a line may be made of: 32-bit numbers, or heights, u16, each of which keeps a number modulo 65,536.
ghost use Rattle.std.specs.Prelude.{◌≡◌, ℕ, ℤ, pos, List};
ghost use Rattle.numbers.specs.Signal.{at};
ghost use Rattle.areas.specs.Areas.{heights_at, height16, wholes as wholes_of};
ghost use Rattle.areas.specs.Elements.{Elements};
ghost use Rattle.areas.specs.Kept.{numbers_are, heights_are};

use crate::height_rows;

pub trait Element: Copy {
    // An area of them, as a list of whole numbers and as a signal; one of them; and what one keeps of a number.
    ghost wholes: { List Self → List ℤ };

    ghost whole: { Self → ℤ };

    ghost read: { List Self → ℕ → ℤ };

    ghost kept: { ℤ → ℤ };

    ghost laws: { Elements wholes whole read kept };

    fn of(v: i32) -> Self
        ensures { whole result ≡ kept v };

    fn value(self) -> i32
        ensures { result ≡ whole self };
}

impl Element for i32 {
    ghost wholes = { λ l. l };

    ghost whole = { λ z. z };

    ghost read = { at };

    ghost kept = { λ z. z };

    ghost laws = { numbers_are };

    fn of(v: i32) -> i32 {
        v
    }

    fn value(self) -> i32 {
        self
    }
}

impl Element for u16 {
    ghost wholes = { wholes_of };

    ghost whole = { pos };

    ghost read = { heights_at };

    ghost kept = { height16 };

    ghost laws = { heights_are };

    fn of(v: i32) -> u16 {
        height_rows::height_of(v)
    }

    fn value(self) -> i32 {
        self as i32
    }
}
