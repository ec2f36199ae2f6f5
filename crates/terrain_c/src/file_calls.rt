// The header of a ground file (docs/FORMAT.md). What the call says is `ground_file`'s.
ghost use Rattle.std.specs.Prelude.{◌≡◌, eqb};
ghost use Rattle.numbers.specs.Signal.{pick};
ghost use Rattle.ground_file.specs.Header.{header_number, header_words, header_in};

// The shape and the step that the first 24 bytes of a file say, as seven numbers. The questions are 5, 22, 2, 3, 18, 4 and 20; a no leaves these.
#[unsafe(no_mangle)]
pub extern "C" fn terrain_file_header(bytes: &[u8], header: &mut [u64; 7]) -> u32
    ensures value { result ≡ header_number bytes.now }
    ensures header_after { header.new ≡ pick (eqb result 0) (header_in bytes.now) header.old }
{
    terrain::file_calls::terrain_file_header(bytes, header)
}
