// The calls of `nine_seven_sweep`, exported likewise.
ghost use Rattle.std.specs.Prelude.{◌≡◌, length};
ghost use Rattle.numbers.specs.Signal.{at, pick, both};
ghost use Rattle.lifting.specs.Grid.{side};
ghost use Rattle.nine_seven_sweep.specs.Columns.{columns_fit, columns_lifted, columns_back, columns_have};

use nine_seven_sweep::columns;

#[unsafe(no_mangle)]
pub extern "C" fn nine_seven_lift_columns(
    area: &mut [i32],
    stride: usize,
    width: usize,
    y: usize,
    height: usize,
) -> u32
    ensures value { result ≡ pick (columns_fit (length area.old) stride width height) 0 5 }
    ensures area_after { at area.new ≡
        pick (columns_fit (length area.old) stride width height) (columns_lifted stride width (side y height) (at area.old))
        (at area.old) }
{
    columns::lift_columns(area, stride, width, y, height) as u32
}

#[unsafe(no_mangle)]
pub extern "C" fn nine_seven_unlift_columns(
    area: &mut [i32],
    stride: usize,
    width: usize,
    y: usize,
    height: usize,
) -> u32
    ensures value { result ≡
        pick (columns_fit (length area.old) stride width height)
        (pick (columns_have width (side y height) (at area.old)) 0 14) 5 }
    ensures area_after { at area.new ≡
        pick (both (columns_fit (length area.old) stride width height) (columns_have width (side y height) (at area.old)))
        (columns_back stride width (side y height) (at area.old)) (at area.old) }
{
    columns::unlift_columns(area, stride, width, y, height) as u32
}
