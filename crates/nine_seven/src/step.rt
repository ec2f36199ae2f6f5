// The lifting steps of the 9/7 as types: a low step goes by two neighbours, as any step of `lifting` does, a high step by four.
ghost use Rattle.std.specs.Prelude.{◌≡◌, ℤ};
ghost use Rattle.numbers.specs.Word.{wrap32};
ghost use Rattle.nine_seven.specs.NineSeven.{predicted, unpredicted, updated, unupdated};

use crate::sample;
use lifting::step::Step;

// What becomes of a high sample x between a and b, those three places off being c and e.
pub trait WideStep {
    ghost op: { ℤ → ℤ → ℤ → ℤ → ℤ → ℤ };

    fn step(x: i32, a: i32, b: i32, c: i32, e: i32) -> i32
        ensures { result ≡ op x a b c e };
}

pub struct Predict;

impl WideStep for Predict {
    ghost op = { predicted wrap32 };

    fn step(x: i32, a: i32, b: i32, c: i32, e: i32) -> i32 {
        sample::predict(x, a, b, c, e)
    }
}

pub struct Unpredict;

impl WideStep for Unpredict {
    ghost op = { unpredicted wrap32 };

    fn step(x: i32, a: i32, b: i32, c: i32, e: i32) -> i32 {
        sample::unpredict(x, a, b, c, e)
    }
}

pub struct Update;

impl Step for Update {
    ghost op = { updated wrap32 };

    fn step(x: i32, a: i32, b: i32) -> i32 {
        sample::update(x, a, b)
    }
}

pub struct Unupdate;

impl Step for Unupdate {
    ghost op = { unupdated wrap32 };

    fn step(x: i32, a: i32, b: i32) -> i32 {
        sample::unupdate(x, a, b)
    }
}
