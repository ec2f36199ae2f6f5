// The line calls of both filters. What they say of a line is `lifting`'s and `nine_seven`'s: their definitions give the answer and what stands in `out`
// afterwards, for every line, every start and every area.
ghost use Rattle.std.specs.Prelude.{◌≡◌, length, leb};
ghost use Rattle.numbers.specs.Signal.{at, pick, both};
ghost use Rattle.lifting.specs.Grid.{side};
ghost use Rattle.lifting.specs.GridHalves.{forward_into, backward_into, has_line_in};
ghost use Rattle.nine_seven.specs.Memory.{forward_into as nine_seven_forward_into, backward_into as nine_seven_backward_into};

// A line to its low values, then its high values, at the front of `out`, by the 5/3. 5, and nothing changed, where `out` is shorter than the line.
#[unsafe(no_mangle)]
pub extern "C" fn terrain_line_forward(line: &[i32], start: usize, out: &mut [i32]) -> u32
    ensures value { result ≡ pick (leb (length line.now) (length out.old)) 0 5 }
    ensures out_after { at out.new ≡ pick (leb (length line.now) (length out.old))
        (forward_into (side start (length line.now)) (at line.now) (at out.old)) (at out.old) }
{
    terrain::line::terrain_line_forward(line, start, out)
}

// Low values, then high values, to the line that has them, at the front of `out`. With nothing changed 5, where `out` is shorter, then 14, for an only high
// value that is odd.
#[unsafe(no_mangle)]
pub extern "C" fn terrain_line_backward(coefficients: &[i32], start: usize, out: &mut [i32]) -> u32
    ensures value { result ≡ pick (leb (length coefficients.now) (length out.old))
        (pick (has_line_in (side start (length coefficients.now)) (at coefficients.now)) 0 14) 5 }
    ensures out_after { at out.new ≡ pick (both (leb (length coefficients.now) (length out.old))
        (has_line_in (side start (length coefficients.now)) (at coefficients.now)))
        (backward_into (side start (length coefficients.now)) (at coefficients.now) (at out.old)) (at out.old) }
{
    terrain::line::terrain_line_backward(coefficients, start, out)
}

// The same two by the integer 9/7 of CCSDS 122.0 (document 02, Q-8).
#[unsafe(no_mangle)]
pub extern "C" fn terrain_ccsds_line_forward(line: &[i32], start: usize, out: &mut [i32]) -> u32
    ensures value { result ≡ pick (leb (length line.now) (length out.old)) 0 5 }
    ensures out_after { at out.new ≡ pick (leb (length line.now) (length out.old))
        (nine_seven_forward_into (side start (length line.now)) (at line.now) (at out.old)) (at out.old) }
{
    terrain::line::terrain_ccsds_line_forward(line, start, out)
}

#[unsafe(no_mangle)]
pub extern "C" fn terrain_ccsds_line_backward(
    coefficients: &[i32],
    start: usize,
    out: &mut [i32],
) -> u32
    ensures value { result ≡ pick (leb (length coefficients.now) (length out.old))
        (pick (has_line_in (side start (length coefficients.now)) (at coefficients.now)) 0 14) 5 }
    ensures out_after { at out.new ≡ pick (both (leb (length coefficients.now) (length out.old))
        (has_line_in (side start (length coefficients.now)) (at coefficients.now)))
        (nine_seven_backward_into (side start (length coefficients.now)) (at coefficients.now) (at out.old))
        (at out.old) }
{
    terrain::line::terrain_ccsds_line_backward(coefficients, start, out)
}
