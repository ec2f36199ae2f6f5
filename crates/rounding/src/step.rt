// One value rounded, without a division: its size times the step's reciprocal. A loop of it stays in vectors.
ghost use Rattle.std.specs.Prelude.{◌≡◌, ◌*◌, ◌/◌, ◌≤◌, nat_abs};
ghost use Rattle.rounding.specs.Rounding.{toward_zero};
ghost use Rattle.rounding.specs.Figure.{max_step};
ghost use Rattle.rounding.specs.Step.{shift_of, with_sign, Divides};

// A step q with ⌈2^shift / q⌉.
#[derive(Clone, Copy)]
pub struct Reciprocal {
    pub step: u32,
    pub by: u32,
    pub shift: u32,
}

// 31 bits, and as many as the step has.
#[tactic(auto, unfolding(crate::specs::Step::shift_of))]
fn shift_of(step: u32) -> u32
    ensures { result ≡ shift_of step }
{
    match step {
        0..=1 => 31,
        2 => 32,
        3..=4 => 33,
        5..=8 => 34,
        9..=16 => 35,
        17..=32 => 36,
        _ => 37,
    }
}

pub fn reciprocal_of(step: u32) -> Reciprocal
    requires { (1 ≤ step) × (step ≤ max_step) }
    ensures { (result.step ≡ step) × Divides result }
{
    let shift = shift_of(step);
    let power: u64 = 1 << shift;
    let q = step as u64;
    Reciprocal {
        step,
        by: ((power + q - 1) / q) as u32,
        shift,
    }
}

// |v|
fn size(v: i32) -> u64
    ensures { result ≡ nat_abs v }
{
    let w = v as i64;
    if w < 0 { (0 - w) as u64 } else { w as u64 }
}

// m with the sign of v
fn signed(v: i32, m: u64) -> i32
    requires { m ≤ nat_abs v }
    ensures { result ≡ with_sign v m }
{
    let w = m as i64;
    if v < 0 { (0 - w) as i32 } else { w as i32 }
}

// The largest multiple of the step that is at most m.
fn multiple(m: u64, q: Reciprocal) -> u64
    requires { (m ≤ 2147483648) × Divides q }
    ensures { result ≡ m / q.step * q.step }
{
    let by = q.by as u64;
    let step = q.step as u64;
    ((m * by) >> q.shift) * step
}

pub fn rounded(v: i32, q: Reciprocal) -> i32
    requires { Divides q }
    ensures { result ≡ toward_zero q.step v }
{
    signed(v, multiple(size(v), q))
}
