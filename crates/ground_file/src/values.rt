// The numbers of a group, from the values of a row. The module is private, as `parts` is.
ghost use Rattle.std.specs.Prelude.{◌≡◌, ◌+◌, ◌-◌, ◌/◌, ◌≤◌, length, take};
ghost use Rattle.std.specs.Int.Signed.{mag};
ghost use Rattle.numbers.specs.Signal.{at};
ghost use Rattle.numbers.specs.Tests.{every};
ghost use Rattle.ground_file.specs.File.{listed};
ghost use Rattle.ground_file.specs.Values.{sign_of, kept, is_multiple};

const FEW: u32 = 134217728;

// A value without its sign: v, or −1 − v below 0.
fn magnitude(v: i32) -> u32
    ensures { result ≡ mag v }
{
    if v < 0 {
        (0 - (v + 1)) as u32
    } else {
        v as u32
    }
}

fn sign(v: i32) -> u32
    ensures { result ≡ sign_of v }
{
    u32::from(v < 0)
}

fn divided(m: u32, step: u32) -> u32
    requires { 1 ≤ step }
    ensures { result ≡ m / step }
{
    if step == 1 { m } else { m / step }
}

// A value divided by the step, as a number that stands in 28 bits; one that passes 7 does anyway.
fn number_of(v: i32, step: u32) -> u32
    requires { 1 ≤ step }
    ensures { result ≡ kept step v }
{
    2 * (divided(magnitude(v), step) % FEW) + sign(v)
}

// The numbers of n values of a row from value `from` on.
pub fn fill(row: &[i32], from: usize, n: usize, step: u32, numbers: &mut [u32])
    requires { (n ≤ length row.now - from) × (n ≤ length numbers.old) × (1 ≤ step) }
    ensures { take n numbers.new ≡ listed n (λ i. kept step (at row.now (from + i))) }
{
    for i in 0..n {
        numbers[i] = number_of(row[from + i], step);
    }
}

// Is a value a multiple of the step?
fn is_multiple(v: i32, step: u32) -> bool
    requires { 1 ≤ step }
    ensures { result ≡ is_multiple step v }
{
    (magnitude(v) + sign(v)) % step == 0
}

// Is each value of a row one?
pub fn multiples(row: &[i32], step: u32) -> bool
    requires { 1 ≤ step }
    ensures { result ≡ every (length row.now) (λ i. is_multiple step (at row.now i)) }
{
    let mut ok = true;
    for v in row {
        ok = ok & is_multiple(*v, step);
    }
    ok
}
