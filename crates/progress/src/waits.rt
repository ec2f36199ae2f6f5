// What waits to be handed out.
ghost use Rattle.std.specs.Prelude.{◌≡◌};
ghost use Rattle.progress.specs.Waits.{no_wait, seen_in_words};

// The level, from 1, of the set that is being handed out (0: nothing), the bands of it that are left, and where that level's stretch begins, counted as the
// level is.
#[derive(Clone, Copy)]
pub struct Wait {
    pub level: usize,
    pub left: usize,
    pub offset: usize,
}

// Nothing waits.
pub fn nothing() -> Wait
    ensures { result ≡ no_wait }
{
    Wait {
        level: 0,
        left: 0,
        offset: 0,
    }
}

// What waits of levels whose stretches begin at place a, seen from k levels above them.
pub fn seen_from(k: usize, a: usize, r: Wait) -> Wait
    ensures { result ≡ seen_in_words k a r }
{
    if r.level == 0 {
        return Wait {
            level: 0,
            left: r.left,
            offset: 0,
        };
    }
    Wait {
        level: std::num::wrapping_add_usize(k, r.level),
        left: r.left,
        offset: std::num::wrapping_add_usize(a, r.offset),
    }
}
