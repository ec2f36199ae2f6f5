// Which interface the archive has: a program holds it against the header that it was compiled with.
ghost use Rattle.std.specs.Prelude.{◌≡◌};
ghost use Rattle.terrain.specs.Version.{version};

// include/terrain.h's TERRAIN_VERSION.
#[unsafe(no_mangle)]
pub extern "C" fn terrain_version() -> u32
    ensures { result ≡ version }
{
    terrain::version::terrain_version()
}
