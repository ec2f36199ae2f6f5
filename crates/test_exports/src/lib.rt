// The calls of `lifting` that the C interface leaves out, exported for the tests and the benchmark: the row calls, the pair calls, the in-place line calls,
// and the line calls with a start. Each has `lifting`'s own promise. The library that a program links is `terrain`, not this.
#![tactic(auto)]

mod nine_seven_back;
mod nine_seven_columns;
mod nine_seven_level;
mod nine_seven_lines;

ghost use Rattle.std.specs.Prelude.{◌≡◌, length, leb};
ghost use Rattle.numbers.specs.Signal.{at, pick, both};
ghost use Rattle.numbers.specs.Word.{wrap32};
ghost use Rattle.lifting.specs.Line.{predicted, unpredicted, updated, unupdated};
ghost use Rattle.lifting.specs.Grid.{side};
ghost use Rattle.lifting.specs.Halves.{fronted};
ghost use Rattle.lifting.specs.GridHalves.{lifted_in_place, unlifted_in_place, has_line_in, forward_into, backward_into, highs_laid};
ghost use Rattle.lifting.specs.Rows.{rows_fit, rows_changed};
ghost use Rattle.lifting.specs.Pairs.{pair_fits, pair_lifted, pair_copied};

use lifting::pairs::Pair;
use lifting::step::{Predict, Unpredict, Unupdate, Update};
use lifting::{halves, line, pairs, rows};

#[unsafe(no_mangle)]
pub extern "C" fn kernel_predict_row(
    area: &mut [i32],
    stride: usize,
    width: usize,
    target: usize,
    left: usize,
    right: usize,
) -> u32
    ensures value { result ≡ pick (rows_fit (length area.old) stride width target left right) 0 5 }
    ensures area_after { at area.new ≡ rows_changed (predicted wrap32) (length area.old) stride width target left right
        (at area.old) }
{
    refusal::code(rows::change_row::<Predict>(area, stride, width, target, left, right)) as u32
}

#[unsafe(no_mangle)]
pub extern "C" fn kernel_update_row(
    area: &mut [i32],
    stride: usize,
    width: usize,
    target: usize,
    left: usize,
    right: usize,
) -> u32
    ensures value { result ≡ pick (rows_fit (length area.old) stride width target left right) 0 5 }
    ensures area_after { at area.new ≡ rows_changed (updated wrap32) (length area.old) stride width target left right (at area.old) }
{
    refusal::code(rows::change_row::<Update>(area, stride, width, target, left, right)) as u32
}

#[unsafe(no_mangle)]
pub extern "C" fn kernel_unupdate_row(
    area: &mut [i32],
    stride: usize,
    width: usize,
    target: usize,
    left: usize,
    right: usize,
) -> u32
    ensures value { result ≡ pick (rows_fit (length area.old) stride width target left right) 0 5 }
    ensures area_after { at area.new ≡ rows_changed (unupdated wrap32) (length area.old) stride width target left right
        (at area.old) }
{
    refusal::code(rows::change_row::<Unupdate>(area, stride, width, target, left, right)) as u32
}

#[unsafe(no_mangle)]
pub extern "C" fn kernel_unpredict_row(
    area: &mut [i32],
    stride: usize,
    width: usize,
    target: usize,
    left: usize,
    right: usize,
) -> u32
    ensures value { result ≡ pick (rows_fit (length area.old) stride width target left right) 0 5 }
    ensures area_after { at area.new ≡ rows_changed (unpredicted wrap32) (length area.old) stride width target left right
        (at area.old) }
{
    refusal::code(rows::change_row::<Unpredict>(area, stride, width, target, left, right)) as u32
}

#[unsafe(no_mangle)]
pub extern "C" fn kernel_lift_pair(
    area: &mut [i32],
    stride: usize,
    width: usize,
    high: usize,
    low: usize,
    right: usize,
    before: usize,
) -> u32
    ensures value { result ≡ pick (pair_fits (length area.old) stride width high low right before) 0 5 }
    ensures area_after { at area.new ≡ pick (pair_fits (length area.old) stride width high low right before)
        (pair_lifted stride width high low right before (at area.old)) (at area.old) }
{
    let pair = Pair {
        high,
        low,
        right,
        before,
    };
    refusal::code(pairs::lift_pair(area, stride, width, pair)) as u32
}

#[unsafe(no_mangle)]
pub extern "C" fn kernel_lift_and_copy(
    area: &mut [i32],
    stride: usize,
    width: usize,
    high: usize,
    low: usize,
    right: usize,
    before: usize,
) -> u32
    ensures value { result ≡ pick (pair_fits (length area.old) stride width high low right before) 0 5 }
    ensures area_after { at area.new ≡ pick (pair_fits (length area.old) stride width high low right before)
        (pair_copied stride width high low right before (at area.old)) (at area.old) }
{
    let pair = Pair {
        high,
        low,
        right,
        before,
    };
    refusal::code(pairs::lift_and_copy(area, stride, width, pair)) as u32
}

#[unsafe(no_mangle)]
pub extern "C" fn kernel_lift(line: &mut [i32], start: usize)
    ensures { at line.new ≡ lifted_in_place (side start (length line.old)) (at line.old) }
{
    line::lift(line, start);
}

#[unsafe(no_mangle)]
pub extern "C" fn kernel_unlift(line: &mut [i32], start: usize) -> u32
    ensures value { result ≡ pick (has_line_in (side start (length line.old)) (at line.old)) 0 14 }
    ensures line_after { at line.new ≡ pick (has_line_in (side start (length line.old)) (at line.old))
        (unlifted_in_place (side start (length line.old)) (at line.old)) (at line.old) }
{
    refusal::code(line::unlift(line, start)) as u32
}

#[unsafe(no_mangle)]
pub extern "C" fn kernel_forward(line: &[i32], start: usize, out: &mut [i32]) -> u32
    ensures value { result ≡ pick (leb (length line.now) (length out.old)) 0 5 }
    ensures out_after { at out.new ≡ pick (leb (length line.now) (length out.old))
        (forward_into (side start (length line.now)) (at line.now) (at out.old)) (at out.old) }
{
    refusal::code(line::forward(line, start, out)) as u32
}

#[unsafe(no_mangle)]
pub extern "C" fn kernel_backward(coefficients: &[i32], start: usize, out: &mut [i32]) -> u32
    ensures value { result ≡ pick (leb (length coefficients.now) (length out.old))
        (pick (has_line_in (side start (length coefficients.now)) (at coefficients.now)) 0 14) 5 }
    ensures out_after { at out.new ≡ pick (both (leb (length coefficients.now) (length out.old))
        (has_line_in (side start (length coefficients.now)) (at coefficients.now)))
        (backward_into (side start (length coefficients.now)) (at coefficients.now) (at out.old)) (at out.old) }
{
    refusal::code(line::backward(coefficients, start, out)) as u32
}

#[unsafe(no_mangle)]
pub extern "C" fn kernel_unlift_by(row: &[i32], start: usize, out: &mut [i32]) -> u32
    ensures value { result ≡ pick (leb (length row.now) (length out.old))
        (pick (has_line_in (side start (length row.now)) (highs_laid (side start (length row.now)) (at row.now)
        (at out.old))) 0 14) 5 }
    ensures out_after { at out.new ≡ pick (both (leb (length row.now) (length out.old))
        (has_line_in (side start (length row.now)) (highs_laid (side start (length row.now)) (at row.now)
        (at out.old)))) (fronted (length row.now)
        (unlifted_in_place (side start (length row.now)) (highs_laid (side start (length row.now)) (at row.now)
        (at out.old))) (at out.old)) (at out.old) }
{
    refusal::code(halves::unlift_by(row, start, out)) as u32
}
