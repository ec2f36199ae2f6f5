// The figure of document 02, Q-10: no height that a tolerant reader rebuilds from a rounded plane is off by more.
ghost use Rattle.std.specs.Prelude.{◌≡◌, ◌≤◌, IfOk};
ghost use Rattle.refusal.specs.Numbers.{answer};
ghost use Rattle.wavelet.specs.Limits.{max_levels};
ghost use Rattle.tolerance.specs.Figure.{half_up, level_error};
ghost use Rattle.rounding.specs.Figure.{max_step, error_bound};
ghost use Rattle.rounding.specs.Calls.{bound_question};

use refusal::Refusal;
use wavelet::limits;

// The largest step.
pub const MAX_STEP: usize = 64;

pub fn max_step() -> usize
    ensures { result ≡ max_step }
{
    MAX_STEP
}

// ⌈n / 2⌉
fn half_up(n: usize) -> usize
    requires { n ≤ 65535 }
    ensures { result ≡ half_up n }
{
    (n + 1) / 2
}

// A level's error: e for its bands, f for its low-low part.
fn level_error(e: usize, f: usize) -> usize
    requires { (e ≤ 63) × (f ≤ 65535) }
    ensures { result ≡ level_error e f }
{
    let a = f + e + half_up(e);
    let b = 2 * e + half_up(e);
    a + b + half_up(b)
}

// The figure of level 1.
fn bound_of(levels: usize, step: usize) -> usize
    requires { (levels ≤ max_levels) × (1 ≤ step) × (step ≤ max_step) }
    ensures { result ≡ error_bound levels step }
{
    let e = step - 1;
    let mut f = 0;
    for _k in 0..levels {
        f = level_error(e, f);
    }
    f
}

// The same as a call. The questions are 4 and 20.
pub fn error_bound(levels: usize, step: usize) -> Result<usize, Refusal>
    ensures value { answer result ≡ bound_question levels step }
    ensures bound { IfOk result (λ b. b ≡ error_bound levels step) }
{
    if !limits::is_within(levels, limits::MAX_LEVELS) {
        return Err(Refusal::BadLevels);
    }
    if !limits::is_within(step, MAX_STEP) {
        return Err(Refusal::BadStep);
    }
    Ok(bound_of(levels, step))
}
