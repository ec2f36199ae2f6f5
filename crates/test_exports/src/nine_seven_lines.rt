// The calls of `nine_seven` that `terrain` does not export, exported likewise: each has that crate's own promise.
ghost use Rattle.std.specs.Prelude.{◌≡◌, length};
ghost use Rattle.numbers.specs.Signal.{at, pick};
ghost use Rattle.numbers.specs.Word.{wrap32};
ghost use Rattle.lifting.specs.Grid.{side};
ghost use Rattle.lifting.specs.GridHalves.{has_line_in};
ghost use Rattle.lifting.specs.Rows.{rows_fit, rows_changed};
ghost use Rattle.nine_seven.specs.NineSeven.{predicted, unpredicted, updated, unupdated};
ghost use Rattle.nine_seven.specs.Memory.{lifted_in_place, unlifted_in_place};
ghost use Rattle.nine_seven.specs.Rows.{five_fit, rows_by};

use nine_seven::{line, rows};

#[unsafe(no_mangle)]
pub extern "C" fn nine_seven_lift(line: &mut [i32], start: usize)
    ensures { at line.new ≡ lifted_in_place (side start (length line.old)) (at line.old) }
{
    line::lift(line, start);
}

#[unsafe(no_mangle)]
pub extern "C" fn nine_seven_unlift(line: &mut [i32], start: usize) -> u32
    ensures value { result ≡ pick (has_line_in (side start (length line.old)) (at line.old)) 0 14 }
    ensures line_after { at line.new ≡ pick (has_line_in (side start (length line.old)) (at line.old))
        (unlifted_in_place (side start (length line.old)) (at line.old)) (at line.old) }
{
    line::unlift(line, start) as u32
}

#[unsafe(no_mangle)]
pub extern "C" fn nine_seven_predict_row(
    area: &mut [i32],
    stride: usize,
    width: usize,
    target: usize,
    left: usize,
    right: usize,
    before: usize,
    after: usize,
) -> u32
    ensures value { result ≡ pick (five_fit (length area.old) stride width target left right before after) 0 5 }
    ensures area_after { at area.new ≡ rows_by (predicted wrap32) (length area.old) stride width target left right before after
        (at area.old) }
{
    rows::predict_row(area, stride, width, target, left, right, before, after) as u32
}

#[unsafe(no_mangle)]
pub extern "C" fn nine_seven_unpredict_row(
    area: &mut [i32],
    stride: usize,
    width: usize,
    target: usize,
    left: usize,
    right: usize,
    before: usize,
    after: usize,
) -> u32
    ensures value { result ≡ pick (five_fit (length area.old) stride width target left right before after) 0 5 }
    ensures area_after { at area.new ≡ rows_by (unpredicted wrap32) (length area.old) stride width target left right before after
        (at area.old) }
{
    rows::unpredict_row(area, stride, width, target, left, right, before, after) as u32
}

#[unsafe(no_mangle)]
pub extern "C" fn nine_seven_update_row(
    area: &mut [i32],
    stride: usize,
    width: usize,
    target: usize,
    left: usize,
    right: usize,
) -> u32
    ensures value { result ≡ pick (rows_fit (length area.old) stride width target left right) 0 5 }
    ensures area_after { at area.new ≡ rows_changed (updated wrap32) (length area.old) stride width target left right
        (at area.old) }
{
    rows::update_row(area, stride, width, target, left, right) as u32
}

#[unsafe(no_mangle)]
pub extern "C" fn nine_seven_unupdate_row(
    area: &mut [i32],
    stride: usize,
    width: usize,
    target: usize,
    left: usize,
    right: usize,
) -> u32
    ensures value { result ≡ pick (rows_fit (length area.old) stride width target left right) 0 5 }
    ensures area_after { at area.new ≡ rows_changed (unupdated wrap32) (length area.old) stride width target left right
        (at area.old) }
{
    rows::unupdate_row(area, stride, width, target, left, right) as u32
}
