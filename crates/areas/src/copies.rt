// Numbers copied, and numbers cleared.
ghost use Rattle.std.specs.Prelude.{◌≡◌, pos, length, leb};
ghost use Rattle.numbers.specs.Signal.{at, pick};
ghost use Rattle.lifting.specs.Halves.{fronted};
ghost use Rattle.refusal.specs.Numbers.{answer};

use crate::elements::Element;
use refusal::Refusal;

// Numbers copied to the front of `to`.
pub fn copy(from: &[i32], to: &mut [i32]) -> Result<(), Refusal>
    ensures answer { answer result ≡ pick (leb (length from.now) (length to.old)) 0 5 }
    ensures area { at to.new ≡
        pick (leb (length from.now) (length to.old))
        (fronted (length from.now) (at from.now) (at to.old)) (at to.old) }
{
    let n = from.len();
    if to.len() < n {
        return Err(Refusal::AreaShort);
    }
    for i in 0..n {
        to[i] = from[i];
    }
    Ok(())
}

// The first n numbers of an area set to 0.
pub fn clear<T: Element>(area: &mut [T], n: usize) -> Result<(), Refusal>
    ensures answer { answer result ≡ pick (leb n (length area.old)) 0 5 }
    ensures area { T.read area.new ≡
        pick (leb n (length area.old)) (fronted n (λ _. pos 0) (T.read area.old)) (T.read area.old) }
{
    if area.len() < n {
        return Err(Refusal::AreaShort);
    }
    for i in 0..n {
        area[i] = T::of(0);
    }
    Ok(())
}
