// Rows out of the store, and zeros into it. The module is private: only this crate, which meets what is required, can call it.
ghost use Rattle.std.specs.Prelude.{◌≡◌, ◌≤◌, ◌+◌, pos, length};
ghost use Rattle.numbers.specs.Signal.{at};
ghost use Rattle.lifting.specs.Halves.{fronted};

// The `count` numbers from `start` on to the front of `out`.
pub fn hand_out(store: &[i32], start: usize, count: usize, out: &mut [i32])
    requires { (start + count ≤ length store.now) × (count ≤ length out.old) }
    ensures { at out.new ≡ fronted count (λ j. at store.now (start + j)) (at out.old) }
{
    for j in 0..count {
        out[j] = store[start + j];
    }
}

// Zeros in the first `count` numbers.
pub fn clear(store: &mut [i32], count: usize)
    requires { count ≤ length store.old }
    ensures { at store.new ≡ fronted count (λ _. pos 0) (at store.old) }
{
    for j in 0..count {
        store[j] = 0;
    }
}
