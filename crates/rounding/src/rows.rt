// The rows of a plane rounded, each past the low-low values of the last level.
ghost use Rattle.std.specs.Prelude.{◌≡◌, ◌*◌, ◌≤◌, length, ltb};
ghost use Rattle.numbers.specs.Signal.{at, pick};
ghost use Rattle.lifting.specs.Halves.{fronted};
ghost use Rattle.wavelet.specs.Questions.{Sized};
ghost use Rattle.rounding.specs.Rounding.{rounded_plane};
ghost use Rattle.rounding.specs.Figure.{max_step};
ghost use Rattle.rounding.specs.Step.{Divides, rounded_from};

use crate::step;
use crate::step::Reciprocal;
use wavelet::sizes;

// The numbers from place `first` on, before place `end`.
fn round_between(plane: &mut [i32], first: usize, end: usize, q: Reciprocal)
    requires { Divides q × (end ≤ length plane.old) }
    ensures { at plane.new ≡ rounded_from q.step first end (at plane.old) }
{
    for i in first..end {
        plane[i] = step::rounded(plane[i], q);
    }
}

// Where the values to round begin in row r.
fn first_of(r: usize, top: usize, low: usize) -> usize
    ensures { result ≡ pick (ltb r top) low 0 }
{
    if r < top { low } else { 0 }
}

pub fn round_rows(plane: &mut [i32], width: usize, height: usize, levels: usize, step: usize)
    requires { Sized width height levels × (width * height ≤ length plane.old) × (1 ≤ step) × (step ≤ max_step) }
    ensures { at plane.new ≡
        fronted (width * height) (rounded_plane levels width height step (at plane.old)) (at plane.old) }
{
    let q = step::reciprocal_of(step as u32);
    let low = sizes::size_at(levels, 0, width);
    let top = sizes::size_at(levels, 0, height);
    for r in 0..height {
        let from = r * width;
        round_between(plane, from + first_of(r, top, low), from + width, q);
    }
}
