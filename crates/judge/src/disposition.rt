// What becomes of an order that has traded.
ghost use Rattle.std.specs.Prelude.{◌≡◌};
ghost use Rattle.judge.specs.Disposition.{beyond_drill, at_away, disposition_of};
ghost use Rattle.judge.specs.Dispositions.{disposition_number};

use crate::outcome::Disposition;
use entry::words::{plus, wide};
use entry::{Entry, MARKET, NOW, Quotes, Terms};
use rows::{BUY, SELL};
use units::Contracts;

// 3: a limit beyond the drill price, further through the market than the order was let trade.
fn beyond_drill(e: Entry, q: Quotes, t: Terms) -> bool
    ensures { result ≡ beyond_drill e q t }
{
    (e.side == BUY && 0 < q.nbo.0 && plus(q.nbo, t.drill) < wide(e.price))
        || (e.side == SELL && 0 < q.nbb.0 && e.price.0 < q.nbb.0.saturating_sub(t.drill.0))
}

// 4: a limit that would lock or cross the quote of another market.
fn at_away(e: Entry, q: Quotes) -> bool
    ensures { result ≡ at_away e q }
{
    (e.side == BUY && 0 < q.away.offer.0 && q.away.offer.0 <= e.price.0)
        || (e.side == SELL && 0 < q.away.bid.0 && e.price.0 <= q.away.bid.0)
}

// The disposition of an order as judged, on an open market, with what is left of it unfilled.
pub fn disposition(e: Entry, q: Quotes, t: Terms, left: Contracts) -> Disposition
    ensures { disposition_number result ≡ disposition_of e q t left }
{
    if left.0 == 0 {
        Disposition::Filled
    } else if e.kind == MARKET || e.life == NOW {
        Disposition::Unfilled
    } else if beyond_drill(e, q, t) {
        Disposition::BeyondDrill
    } else if at_away(e, q) {
        Disposition::AtAway
    } else {
        Disposition::Rests
    }
}
