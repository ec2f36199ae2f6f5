// Five numbers of a line: at a low value's own place and at the two places on either side of it, mirrored at the line's ends.
ghost use Rattle.std.specs.Prelude.{◌≡◌, ◌*◌, ◌<◌, ◌≤◌, eqb};
ghost use Rattle.numbers.specs.Signal.{pick};
ghost use Rattle.nearest_change.specs.Trials.{Small, away, mirrored, places_of, bias, lifted_of, number_of, replaced_of};

#[derive(Clone, Copy)]
pub struct Five {
    pub a: usize,
    pub b: usize,
    pub c: usize,
    pub d: usize,
    pub e: usize,
}

// Added to each lifted number, so that none is negative.
pub const BIAS: usize = 131072;

// How far q is from 2.
fn away(q: usize) -> usize
    ensures { result ≡ away q }
{
    if q < 2 { 2 - q } else { q - 2 }
}

// The place of coordinate q − 2 of a line of n, mirrored at its ends.
fn mirrored(n: usize, q: usize) -> usize
    requires { (1 ≤ n) × (n < 4294967296) }
    ensures { result ≡ mirrored n q }
{
    let p = away(q);
    if p < n {
        return p;
    }
    let back = 2 * (n - 1);
    if p < back { back - p } else { 0 }
}

// The places that low value k of a line of n reads.
pub fn places(n: usize, k: usize) -> Five
    requires { (1 ≤ n) × (n < 4294967296) × (k < n) }
    ensures { result ≡ places_of n k }
{
    let q = 2 * k;
    Five {
        a: mirrored(n, q),
        b: mirrored(n, q + 1),
        c: mirrored(n, q + 2),
        d: mirrored(n, q + 3),
        e: mirrored(n, q + 4),
    }
}

// The low value of the five, by the bias larger.
pub fn lifted(f: Five) -> usize
    requires { Small (2 * bias) f }
    ensures { result ≡ lifted_of f }
{
    f.c + (f.b + f.d + 2 + 4 * BIAS - (f.a + f.c) / 2 - (f.c + f.e) / 2) / 4
}

// Number i of the five, from 0.
pub fn number(f: Five, i: usize) -> usize
    ensures { result ≡ number_of f i }
{
    match i {
        0 => f.a,
        1 => f.b,
        2 => f.c,
        3 => f.d,
        _ => f.e,
    }
}

// The new number if it is this place, else the old one.
fn chosen(place: usize, q: usize, new: usize, old: usize) -> usize
    ensures { result ≡ pick (eqb place q) new old }
{
    if place == q { new } else { old }
}

// The five with a new number at place q, wherever the line has it.
pub fn replaced(f: Five, places: Five, q: usize, new: usize) -> Five
    ensures { result ≡ replaced_of f places q new }
{
    Five {
        a: chosen(places.a, q, new, f.a),
        b: chosen(places.b, q, new, f.b),
        c: chosen(places.c, q, new, f.c),
        d: chosen(places.d, q, new, f.d),
        e: chosen(places.e, q, new, f.e),
    }
}
