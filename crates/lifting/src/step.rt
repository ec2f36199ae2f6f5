// What the passes over a line and over a row of columns take as a parameter: how a sample is changed by its two neighbours. A pass is proved once, for any
// step, and a step by itself is a number of its own.
ghost use Rattle.std.specs.Prelude.{◌≡◌, ℤ};
ghost use Rattle.numbers.specs.Word.{wrap32};
ghost use Rattle.lifting.specs.Line.{predicted, unpredicted, updated, unupdated};

use crate::sample;

// A lifting step: what becomes of sample x between a and b.
pub trait Step {
    ghost op: { ℤ → ℤ → ℤ → ℤ };

    fn step(x: i32, a: i32, b: i32) -> i32
        ensures { result ≡ op x a b };
}

// The four of the 5/3: a high sample by the low ones beside it, a low one by the high ones, and both back.
pub struct Predict;

impl Step for Predict {
    ghost op = { predicted wrap32 };

    fn step(x: i32, a: i32, b: i32) -> i32 {
        sample::predict(x, a, b)
    }
}

pub struct Update;

impl Step for Update {
    ghost op = { updated wrap32 };

    fn step(x: i32, a: i32, b: i32) -> i32 {
        sample::update(x, a, b)
    }
}

pub struct Unupdate;

impl Step for Unupdate {
    ghost op = { unupdated wrap32 };

    fn step(x: i32, a: i32, b: i32) -> i32 {
        sample::unupdate(x, a, b)
    }
}

pub struct Unpredict;

impl Step for Unpredict {
    ghost op = { unpredicted wrap32 };

    fn step(x: i32, a: i32, b: i32) -> i32 {
        sample::unpredict(x, a, b)
    }
}
