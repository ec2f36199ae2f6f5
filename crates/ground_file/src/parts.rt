// The numbers of a part as bytes. The module is private: only this crate, which meets what is required, can call it.
ghost use Rattle.std.specs.Prelude.{◌≡◌, true, ◌+◌, ◌*◌, ◌/◌, ◌%◌, ◌^◌, ◌≤◌, ◌<◌, length};
ghost use Rattle.text.specs.Text.{Wrote};
ghost use Rattle.ground_file.specs.Groups.{bytes_of, holds, part_of};

// Bits that wait to be written: `count` of them, as a number; and the place of the next byte.
#[derive(Clone, Copy)]
pub struct Bits {
    pub low: u64,
    pub count: usize,
    pub at: usize,
}

// The whole bytes among the bits written.
fn flush(bits: Bits, out: &mut [u8]) -> Bits
    requires { bits.at + bits.count / 8 ≤ length out.old }
    ensures wrote { Wrote (bytes_of (bits.count / 8) bits.low) bits.at result.at out.old out.new }
    ensures low_value { (result.low ≡ bits.low / 2 ^ (8 * (bits.count / 8))) × (result.count ≡ bits.count % 8) }
{
    let end = bits.at + bits.count / 8;
    let mut low = bits.low;
    for place in bits.at..end {
        out[place] = (low % 256) as u8;
        low /= 256;
    }
    Bits {
        low,
        count: bits.count % 8,
        at: end,
    }
}

// A number's bits above the `count` bits that wait.
fn joined(low: u64, x: u32, count: usize) -> u64
    requires { (count < 8) × (low + x * 2 ^ count < 2 ^ 36) }
    ensures { result ≡ low + x * 2 ^ count }
{
    low + ((x as u64) << count)
}

// Numbers of w bits each, eight at most, written from place `at` on; answers the place after them.
pub fn pack(numbers: &[u32], w: usize, out: &mut [u8], at: usize) -> usize
    requires { (w ≤ 28) × (length numbers.now ≤ 8) × (holds w numbers.now ≡ true) × (at + (w * length numbers.now + 7) / 8 ≤ length out.old) }
    ensures { Wrote (part_of w numbers.now) at result out.old out.new }
{
    let mut bits = Bits {
        low: 0,
        count: 0,
        at,
    };
    for x in numbers {
        let low = joined(bits.low, *x, bits.count);
        let more = Bits {
            low,
            count: bits.count + w,
            at: bits.at,
        };
        bits = flush(more, out);
    }
    let last = Bits {
        count: bits.count + 7,
        ..bits
    };
    flush(last, out).at
}
