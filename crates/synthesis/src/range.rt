// The least value of a level's rows.
ghost use Rattle.std.specs.Prelude.{◌≡◌, min};
ghost use Rattle.filters.specs.Filters.{filter_of};
ghost use Rattle.level.specs.Rebuilding.{lowest_by};

// The least value that a row made at level k + 1 may have; past the last level, that of the last.
pub fn lowest_of(filter: usize, k: usize) -> i32
    ensures { result ≡ lowest_by (filter_of filter) (min k (filter_of filter).levels) }
{
    if k == 0 {
        0
    } else {
        -filters::range_of(filter, k)
    }
}
