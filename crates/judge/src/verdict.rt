// The whole judgement of a new order.
ghost use Rattle.std.specs.Prelude.{◌≡◌};
ghost use Rattle.judge.specs.JudgedOf.{judged_of};
ghost use Rattle.judge.specs.Verdict.{verdict};

use crate::Judged;
use crate::bound::bound;
use checks::Standing;
use checks::turn_down::{as_judged, turn_down};
use entry::refusal::TurnDown;
use entry::{Entry, Quotes, Terms};

// Why it is turned down; or the order as judged, which before the opening rests and after it trades within its bound.
#[tactic(auto, using(entry::specs::Refusals::turn_down_above_0), unfolding(crate::specs::Verdict::verdict, units::specs::Tests::pick))]
pub fn judge(e: Entry, q: Quotes, t: Terms, s: Standing) -> Result<Judged, TurnDown>
    ensures { judged_of result ≡ verdict e q t s }
{
    turn_down(e, q, t, s)?;
    let order = as_judged(e, q, t);
    if s.opened {
        Ok(Judged::Trades(order, bound(order, q, t)))
    } else {
        Ok(Judged::Rests(order))
    }
}
