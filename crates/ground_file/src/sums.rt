// The checksum: bytes as one number, the first highest, modulo a prime. Four bytes at a time, since each step waits for the division of the one before. The
// module is private, as `parts` is.
ghost use Rattle.std.specs.Prelude.{◌≡◌, ◌+◌, ◌*◌, ◌^◌, ◌%◌, ◌≤◌, ◌<◌, length, take, drop};
ghost use Rattle.ground_file.specs.File.{as_number, prime};

pub const PRIME: u64 = 4293501227;

// Four bytes from byte k on as one number.
fn four(bytes: &[u8], k: usize) -> u64
    requires { k + 4 ≤ length bytes.now }
    ensures { (result ≡ as_number 0 (take 4 (drop k bytes.now))) × (result < 2 ^ 32) }
{
    16777216 * bytes[k] as u64
        + 65536 * bytes[k + 1] as u64
        + 256 * bytes[k + 2] as u64
        + bytes[k + 3] as u64
}

// The sum of bytes that are followed by the first m fours of these.
fn sum_fours(sum: u64, bytes: &[u8], m: usize) -> u64
    requires { (4 * m ≤ length bytes.now) × (sum < prime) }
    ensures { (result ≡ as_number sum (take (4 * m) bytes.now) % prime) × (result < prime) }
{
    let mut r = sum;
    for i in 0..m {
        r = (4294967296 * r + four(bytes, 4 * i)) % PRIME;
    }
    r
}

// The sum of bytes that are followed by these.
fn sum_rest(sum: u64, bytes: &[u8]) -> u64
    requires { sum < prime }
    ensures { result ≡ as_number sum bytes.now % prime }
{
    let mut r = sum;
    for byte in bytes {
        r = (256 * r + *byte as u64) % PRIME;
    }
    r
}

// The same, most of it four bytes at a time.
pub fn sum_of(sum: u64, bytes: &[u8]) -> u64
    requires { sum < prime }
    ensures { result ≡ as_number sum bytes.now % prime }
{
    let m = bytes.len() / 4;
    sum_rest(sum_fours(sum, bytes, m), &bytes[4 * m..])
}
