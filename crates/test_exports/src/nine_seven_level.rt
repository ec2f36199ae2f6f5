// The calls of `analysis` by the 9/7, exported likewise: each has that crate's own promise.
ghost use Rattle.std.specs.Prelude.{◌≡◌, ◌+◌, length, ltb};
ghost use Rattle.numbers.specs.Signal.{at, pick};
ghost use Rattle.lifting.specs.Grid.{side};
ghost use Rattle.filters.specs.Filters.{filter_of};
ghost use Rattle.level.specs.Heights.{height_at};
ghost use Rattle.level.specs.Stretch.{row_place};
ghost use Rattle.analysis.specs.Forward.{kind_of, level_fits, next_fits, countable, delivered, heights_put, heights_fit};

use analysis::forward;

#[unsafe(no_mangle)]
pub extern "C" fn nine_seven_level_slot(w: usize, q: usize) -> usize
    ensures { result ≡ pick (ltb w countable) (row_place (filter_of 1).rows w q) 0 }
{
    forward::row_place(1, w, q)
}

#[unsafe(no_mangle)]
pub extern "C" fn nine_seven_level_put(
    store: &mut [i32],
    w: usize,
    x: usize,
    q: usize,
    column: usize,
    run: &[u16],
    from: usize,
    n: usize,
) -> u32
    ensures value { result ≡ pick (heights_fit 1 (length store.old) (side x w) column n (length run.now) from) 0 5 }
    ensures store_after { at store.new ≡ pick (heights_fit 1 (length store.old) (side x w) column n (length run.now) from)
        (heights_put 1 (side x w) q column n (λ j. height_at run.now (from + j)) (at store.old)) (at store.old) }
{
    u32::from(refusal::code(forward::put(1, store, w, x, q, column, run, from, n)))
}

#[unsafe(no_mangle)]
pub extern "C" fn nine_seven_level_make(
    store: &mut [i32],
    w: usize,
    x: usize,
    y: usize,
    n: usize,
) -> u32
    ensures value { result ≡ pick (level_fits 1 (length store.old) (side x w)) 0 5 }
    ensures store_after { at store.new ≡ pick (level_fits 1 (length store.old) (side x w))
        ((kind_of 1).make (side x w) y n (at store.old)) (at store.old) }
{
    u32::from(refusal::code(forward::make(1, store, w, x, y, n)))
}

#[unsafe(no_mangle)]
pub extern "C" fn nine_seven_level_close(
    store: &mut [i32],
    w: usize,
    x: usize,
    y: usize,
    m: usize,
    n: usize,
) -> u32
    ensures value { result ≡ pick (level_fits 1 (length store.old) (side x w)) 0 5 }
    ensures store_after { at store.new ≡ pick (level_fits 1 (length store.old) (side x w))
        ((kind_of 1).close (side x w) (side y m) n (at store.old)) (at store.old) }
{
    u32::from(refusal::code(forward::close(1, store, w, x, y, m, n)))
}

#[unsafe(no_mangle)]
pub extern "C" fn nine_seven_level_deliver(
    store: &mut [i32],
    w: usize,
    x: usize,
    n: usize,
    q: usize,
) -> u32
    ensures value { result ≡ pick (next_fits 1 (length store.old) (side x w)) 0 5 }
    ensures store_after { at store.new ≡ pick (next_fits 1 (length store.old) (side x w))
        (delivered 1 (side x w) n q (at store.old)) (at store.old) }
{
    u32::from(refusal::code(forward::deliver(1, store, w, x, n, q)))
}
