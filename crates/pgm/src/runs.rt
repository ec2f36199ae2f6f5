// Samples of one byte or two, the most significant first, read a run at a time.
ghost use Rattle.std.specs.Prelude.{◌≡◌, true, false, ◌++◌, ◌+◌, ◌-◌, ◌*◌, ◌/◌, ◌≤◌, ◌<◌, min, leb, length, take, drop, get_or};
ghost use Rattle.numbers.specs.Signal.{pick};
ghost use Rattle.pgm.specs.Runs.{wide, sample_size, heights_of};

pub fn joined(high: u8, low: u8) -> u16
    ensures { result ≡ 256 * high + low }
{
    256 * (high as u16) + low as u16
}

pub fn single(byte: u8) -> u16
    ensures { result ≡ byte }
{
    byte as u16
}

// Two bytes a sample?
#[tactic(auto, unfolding(crate::specs::Runs::wide))]
pub fn is_wide(largest: usize) -> bool
    ensures { result ≡ wide largest }
{
    256 <= largest
}

// Bytes a sample.
#[tactic(auto, unfolding(crate::specs::Runs::sample_size))]
pub fn size(largest: usize) -> usize
    ensures { result ≡ sample_size largest }
{
    if is_wide(largest) { 2 } else { 1 }
}

// How many whole samples a stretch of bytes has from place `from` on, and at most so many.
fn count(bytes: usize, from: usize, wide: bool) -> usize
    ensures { result ≡ pick wide ((bytes - from) / 2) (bytes - from) }
{
    let left = bytes.saturating_sub(from);
    if wide { left / 2 } else { left }
}

fn whole(bytes: usize, from: usize, wide: bool, most: usize) -> usize
    ensures { result ≡ min (pick wide ((bytes - from) / 2) (bytes - from)) most }
{
    count(bytes, from, wide).min(most)
}

// Sample i after place `from`. The call is private: only `read`, which meets what is required, makes it.
fn sample_at(bytes: &[u8], from: usize, wide: bool, i: usize) -> u16
    requires { (wide ≡ true → from + 2 * i + 2 ≤ length bytes.now) × (wide ≡ false → from + i < length bytes.now) }
    ensures { result ≡ pick wide (256 * get_or bytes.now (from + 2 * i) 0 + get_or bytes.now (from + 2 * i + 1) 0)
        (get_or bytes.now (from + i) 0) }
{
    if wide {
        let at = from + 2 * i;
        return joined(bytes[at], bytes[at + 1]);
    }
    single(bytes[from + i])
}

pub fn is_within(sample: u16, largest: usize) -> bool
    ensures { result ≡ leb sample largest }
{
    sample as usize <= largest
}

// Reads heights from place `from` on, as many as there are and as the run has room for, and answers how many. A sample that exceeds the largest value
// is none, nor is one after it.
pub fn read(bytes: &[u8], from: usize, largest: usize, run: &mut [u16]) -> usize
    ensures value { result ≡ min (length (heights_of largest (drop from bytes.now))) (length run.old) }
    ensures run_after { run.new ≡ take result (heights_of largest (drop from bytes.now)) ++ drop result run.old }
{
    let wide = is_wide(largest);
    let n = whole(bytes.len(), from, wide, run.len());
    for i in 0..n {
        let sample = sample_at(bytes, from, wide, i);
        if !is_within(sample, largest) {
            return i;
        }
        run[i] = sample;
    }
    n
}
