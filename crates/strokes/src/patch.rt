// Rectangles of numbers copied: heights to the work area, and from there coefficients to the plane.
ghost use Rattle.std.specs.Prelude.{◌≡◌, ℕ, ◌+◌, ◌-◌, ◌*◌, ◌/◌, ◌^◌, ◌≤◌, ◌<◌, length, true};
ghost use Rattle.numbers.specs.Signal.{at, windowed, spliced};
ghost use Rattle.wavelet.specs.Plane.{cells, flat};
ghost use Rattle.lifting.specs.Grid.{side, count};
ghost use Rattle.wavelet.specs.Bands.{Grid};
ghost use Rattle.strokes.specs.Reach.{reached};
ghost use Rattle.strokes.specs.Local.{patch_copied, band_mended, changed_of, half_of, Opened, place_of};

use crate::direction;
use crate::direction::Level;
use areas::elements::Element;

// Rows and columns of a plane.
#[derive(Clone, Copy)]
pub struct Patch {
    pub row: usize,
    pub column: usize,
    pub rows: usize,
    pub columns: usize,
}

// n numbers from place a of one area to place b of another.
fn copy_to<T: Element>(from: &[T], a: usize, to: &mut [i32], b: usize, n: usize)
    requires { (a + n ≤ length from.now) × (b + n ≤ length to.old) }
    ensures { at to.new ≡ spliced b n (λ i. T.read from.now (a + i)) (at to.old) }
{
    for i in 0..n {
        to[b + i] = from[a + i].value();
    }
}

// A patch of an area, whose rows are `across` apart, from the rows from place a on, `stride` apart.
pub fn copy_patch<T: Element>(
    from: &[T],
    a: usize,
    stride: usize,
    to: &mut [i32],
    across: usize,
    p: Patch,
)
    requires { (0 < across) × (p.column + p.columns ≤ across)
        × ((i : ℕ) → i < p.rows → a + i * stride + p.columns ≤ length from.now)
        × ((i : ℕ) → i < p.rows → (p.row + i) * across + p.column + p.columns ≤ length to.old) }
    ensures { at to.new ≡
        flat across (patch_copied p (λ i j. T.read from.now (a + i * stride + j)) (cells across (at to.old))) }
{
    for i in 0..p.rows {
        copy_to(
            from,
            a + i * stride,
            to,
            (p.row + i) * across + p.column,
            p.columns,
        );
    }
}

// The numbers of one band of a level that are in reach, from the window to the plane: low, high of it across and down are 0, 1.
pub fn copy_band(work: &[i32], plane: &mut [i32], l: Level, a: usize, h: usize)
    requires { Opened l (length work.now) (length plane.old) × (a ≤ 1) × (h ≤ 1) }
    ensures { (B : Grid) → ((n m : ℕ) → n < count (half_of h) (side 0 l.rows.length) → m < count (half_of a) (side 0 l.columns.length) →
        reached (changed_of l.rows) (half_of h) n ≡ true → reached (changed_of l.columns) (half_of a) m ≡ true →
        at work.now (place_of l.stride l.columns l.rows a h n m) ≡ B n m) →
        at plane.new ≡ flat l.across (band_mended (half_of a) (half_of h) l.columns.length l.rows.length (changed_of l.columns) (changed_of l.rows) B
        (cells l.across (at plane.old))) }
{
    let c = direction::part_of(l.columns, a);
    let r = direction::part_of(l.rows, h);
    let first = r.down * l.stride + c.across;
    let p = Patch {
        row: r.plane,
        column: c.plane,
        rows: r.count,
        columns: c.count,
    };
    copy_patch(work, first, 2 * l.stride, plane, l.across, p);
}
