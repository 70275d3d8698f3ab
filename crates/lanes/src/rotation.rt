// The rotation: which lane the next turn serves.
ghost use Rattle.std.specs.Prelude.{◌≡◌};
ghost use Rattle.lanes.specs.Rotation.{served};

use crate::Lanes;
use units::TENANTS;

// The first lane at or after the place that has an entry, in order 0 to 8 and round again; none where no lane has one.
pub fn served(l: Lanes) -> Option<usize>
    ensures { result ≡ served l }
{
    let place = l.place % TENANTS;
    for d in 0..TENANTS {
        let t = (place + d) % TENANTS;
        if 0 < l.lanes[t].len {
            return Some(t);
        }
    }
    None
}
