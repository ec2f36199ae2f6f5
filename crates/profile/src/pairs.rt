// The one pass, pair by pair.
ghost use Rattle.std.specs.Prelude.{◌≡◌, ◌<◌, ◌≤◌, length};
ghost use Rattle.profile.specs.Calls.{floats};
ghost use Rattle.profile.specs.OnePass.{passed};

use crate::{carry, ends};

pub fn one_pass(row: &[u16], out: &mut [f32])
    requires { (1 < length row.now) × (length row.now ≤ length out.old) }
    ensures { floats out.new ≡ passed row.now out.old }
{
    let mut s = ends::open(row);
    let turns = row.len().saturating_sub(3) / 2;
    for k in 0..turns {
        let p = 2 * k;
        let t = carry::turn(s, ends::height(row, p + 3), ends::height(row, p + 4));
        ends::store_pair(
            out,
            p,
            carry::lift_fourth(s.third, s.second, t.third),
            t.third,
        );
        s = t;
    }
    let p = 2 * turns;
    let t = ends::turn_at(row, p, s);
    ends::store_pair(
        out,
        p,
        carry::lift_fourth(s.third, s.second, t.third),
        t.third,
    );
    ends::close(row, out, p + 2, t);
}
