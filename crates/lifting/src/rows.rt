// Row calls: the columns of an area lifted a row at a time, without striding. Row `t` is the `width` numbers from place `t * stride` on.
// Each call changes row `target` by what stands in the same columns of rows `left` and `right`. It refuses, with nothing changed, where a row does not lie in
// the area or is wider than the stride.
ghost use Rattle.std.specs.Prelude.{◌≡◌, ◌+◌, ◌*◌, ◌<◌, length};
ghost use Rattle.numbers.specs.Signal.{at, pick};
ghost use Rattle.refusal.specs.Numbers.{answer};
ghost use Rattle.lifting.specs.Rows.{row_fits, rows_fit, rows_changed};

use crate::place;
use crate::step::Step;
use refusal::Refusal;

// Whether row `row` lies within n numbers: by division, so that no product can overflow.
pub fn row_fits(n: usize, stride: usize, width: usize, row: usize) -> bool
    ensures { result ≡ row_fits n stride width row }
{
    if width > stride {
        return false;
    }
    if width > n {
        return false;
    }
    if stride == 0 {
        return true;
    }
    row <= (n - width) / stride
}

// Whether three rows lie within n numbers.
pub fn rows_fit(
    n: usize,
    stride: usize,
    width: usize,
    target: usize,
    left: usize,
    right: usize,
) -> bool
    ensures { result ≡ rows_fit n stride width target left right }
{
    if row_fits(n, stride, width, target) {
        if row_fits(n, stride, width, left) {
            return row_fits(n, stride, width, right);
        }
    }
    false
}

// Row `target` changed by any step.
pub fn change_row<S: Step>(
    area: &mut [i32],
    stride: usize,
    width: usize,
    target: usize,
    left: usize,
    right: usize,
) -> Result<(), Refusal>
    ensures value { answer result ≡ pick (rows_fit (length area.old) stride width target left right) 0 5 }
    ensures area_after { at area.new ≡ rows_changed S.op (length area.old) stride width target left right (at area.old) }
{
    if !rows_fit(area.len(), stride, width, target, left, right) {
        return Err(Refusal::AreaShort);
    }
    let t = target * stride;
    let l = left * stride;
    let r = right * stride;
    for i in 0..width {
        place::step_at::<S>(area, t + i, l + i, r + i);
    }
    Ok(())
}
