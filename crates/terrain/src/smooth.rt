// The smooth profile of one row. What the call says is `profile`'s: its definitions give the answer and what stands in `out` afterwards.
ghost use Rattle.std.specs.Prelude.{◌≡◌, length};
ghost use Rattle.profile.specs.Calls.{floats, profile_question, smoothed};

// A row of heights to its profile, at the front of `out`. The questions are 2 and 5.
pub fn terrain_profile(row: &[u16], out: &mut [f32]) -> u32
    ensures value { result ≡ profile_question (length row.now) (length out.old) }
    ensures out_after { floats out.new ≡ smoothed result row.now out.old }
{
    refusal::code(profile::smooth(row, out)) as u32
}
