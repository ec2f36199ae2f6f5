// Row calls: the columns of an area lifted a row at a time, without striding. Row `t` is the `width` numbers from place `t * stride` on.
// The call changes row `target` by what stands in the same columns of the rows beside it, `left` and `right`, and three off, `before` and `after`. It refuses,
// with nothing changed, where a row does not lie in the area or is wider than the stride. A low row goes by two rows: it is `lifting`'s call.
ghost use Rattle.std.specs.Prelude.{◌≡◌, length};
ghost use Rattle.numbers.specs.Signal.{at, pick};
ghost use Rattle.numbers.specs.Word.{wrap32};
ghost use Rattle.lifting.specs.Rows.{rows_fit, rows_changed};
ghost use Rattle.nine_seven.specs.NineSeven.{predicted, unpredicted, updated, unupdated};
ghost use Rattle.refusal.specs.Numbers.{answer};
ghost use Rattle.nine_seven.specs.Rows.{five_fit, rows_by};

use crate::place;
use crate::step::{Predict, Unpredict, Unupdate, Update, WideStep};
use lifting::rows;
use refusal::Refusal;

// Whether five rows lie within n numbers.
fn five_fit(
    n: usize,
    stride: usize,
    width: usize,
    target: usize,
    left: usize,
    right: usize,
    before: usize,
    after: usize,
) -> bool
    ensures { result ≡ five_fit n stride width target left right before after }
{
    if rows::rows_fit(n, stride, width, target, left, right) {
        if rows::row_fits(n, stride, width, before) {
            return rows::row_fits(n, stride, width, after);
        }
    }
    false
}

// Row `target`, a high one, changed by any step that goes by four rows.
pub fn change_row<S: WideStep>(
    area: &mut [i32],
    stride: usize,
    width: usize,
    target: usize,
    left: usize,
    right: usize,
    before: usize,
    after: usize,
) -> Result<(), Refusal>
    ensures value { answer result ≡ pick (five_fit (length area.old) stride width target left right before after) 0 5 }
    ensures area_after { at area.new ≡ rows_by S.op (length area.old) stride width target left right before after (at area.old) }
{
    if !five_fit(
        area.len(),
        stride,
        width,
        target,
        left,
        right,
        before,
        after,
    ) {
        return Err(Refusal::AreaShort);
    }
    let t = target * stride;
    let l = left * stride;
    let r = right * stride;
    let b = before * stride;
    let a = after * stride;
    for i in 0..width {
        place::step_at::<S>(area, t + i, l + i, r + i, b + i, a + i);
    }
    Ok(())
}

pub fn predict_row(
    area: &mut [i32],
    stride: usize,
    width: usize,
    target: usize,
    left: usize,
    right: usize,
    before: usize,
    after: usize,
) -> u8
    ensures value { result ≡ pick (five_fit (length area.old) stride width target left right before after) 0 5 }
    ensures area_after { at area.new ≡ rows_by (predicted wrap32) (length area.old) stride width target left right before after
        (at area.old) }
{
    refusal::code(change_row::<Predict>(area, stride, width, target, left, right, before, after))
}

pub fn unpredict_row(
    area: &mut [i32],
    stride: usize,
    width: usize,
    target: usize,
    left: usize,
    right: usize,
    before: usize,
    after: usize,
) -> u8
    ensures value { result ≡ pick (five_fit (length area.old) stride width target left right before after) 0 5 }
    ensures area_after { at area.new ≡ rows_by (unpredicted wrap32) (length area.old) stride width target left right before after
        (at area.old) }
{
    refusal::code(change_row::<Unpredict>(area, stride, width, target, left, right, before, after))
}

pub fn update_row(
    area: &mut [i32],
    stride: usize,
    width: usize,
    target: usize,
    left: usize,
    right: usize,
) -> u8
    ensures value { result ≡ pick (rows_fit (length area.old) stride width target left right) 0 5 }
    ensures area_after { at area.new ≡ rows_changed (updated wrap32) (length area.old) stride width target left right
        (at area.old) }
{
    refusal::code(rows::change_row::<Update>(area, stride, width, target, left, right))
}

pub fn unupdate_row(
    area: &mut [i32],
    stride: usize,
    width: usize,
    target: usize,
    left: usize,
    right: usize,
) -> u8
    ensures value { result ≡ pick (rows_fit (length area.old) stride width target left right) 0 5 }
    ensures area_after { at area.new ≡ rows_changed (unupdated wrap32) (length area.old) stride width target left right
        (at area.old) }
{
    refusal::code(rows::change_row::<Unupdate>(area, stride, width, target, left, right))
}
