// The lifting step, and what goes from one pair of samples to the next. A pair is an even sample and the odd one after it.
ghost use Rattle.std.specs.Prelude.{◌≡◌};
ghost use Rattle.profile.specs.Profile.{lifted, alpha, beta, gamma, delta};
ghost use Rattle.profile.specs.OnePass.{carried_on, turned};

// Before the pair at places p and p + 1: sample p + 2 as the row has it, sample p + 1 after the first pass, sample p after the second
// and sample p − 1 after the third, each mirrored where it is outside the row.
#[derive(Clone, Copy)]
pub struct Carried {
    pub even: f32,
    pub first: f32,
    pub second: f32,
    pub third: f32,
}

// The factors of the four passes.
const FIRST: f32 = -1.586134342;

const SECOND: f32 = -0.052980118;

const THIRD: f32 = 0.882911075;

const FOURTH: f32 = 0.443506852;

// c × (left + right) added to x, the bracket first.
pub fn lift(c: f32, left: f32, x: f32, right: f32) -> f32
    ensures { result ≡ lifted c left x right }
{
    x + c * (left + right)
}

// A sample after each of the passes.
pub fn lift_first(left: f32, x: f32, right: f32) -> f32
    ensures { result ≡ lifted alpha left x right }
{
    lift(FIRST, left, x, right)
}

pub fn lift_second(left: f32, x: f32, right: f32) -> f32
    ensures { result ≡ lifted beta left x right }
{
    lift(SECOND, left, x, right)
}

pub fn lift_third(left: f32, x: f32, right: f32) -> f32
    ensures { result ≡ lifted gamma left x right }
{
    lift(THIRD, left, x, right)
}

pub fn lift_fourth(left: f32, x: f32, right: f32) -> f32
    ensures { result ≡ lifted delta left x right }
{
    lift(FOURTH, left, x, right)
}

// What the next pair is given, once its first and second values are known: the third is due with them.
pub fn carry_on(s: Carried, even: f32, first: f32, second: f32) -> Carried
    ensures { result ≡ carried_on s even first second }
{
    let third = lift_third(s.second, s.first, second);
    Carried {
        even,
        first,
        second,
        third,
    }
}

// One turn: the row's next odd and even sample.
pub fn turn(s: Carried, odd: f32, even: f32) -> Carried
    ensures { result ≡ turned s odd even }
{
    let first = lift_first(s.even, odd, even);
    let second = lift_second(s.first, s.even, first);
    carry_on(s, even, first, second)
}
