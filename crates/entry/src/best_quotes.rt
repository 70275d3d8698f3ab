// NBB and NBO.
ghost use Rattle.std.specs.Prelude.{◌≡◌, max};
ghost use Rattle.units.specs.Units.{cents};
ghost use Rattle.entry.specs.Quotes.{lower_offer, quotes_of};

use crate::{Away, Quotes};
use units::Cents;

// An absent bid is 0, below every other.
fn higher_bid(a: Cents, b: Cents) -> Cents
    ensures { result ≡ cents (max a.0 b.0) }
{
    Cents(a.0.max(b.0))
}

// An absent offer is 0 too, and is ignored.
fn lower_offer(a: Cents, b: Cents) -> Cents
    ensures { result ≡ cents (lower_offer a.0 b.0) }
{
    if a.0 == 0 {
        return b;
    }
    if b.0 == 0 {
        return a;
    }
    Cents(a.0.min(b.0))
}

// The quotes that an order is judged by, from the book's best prices and the away quote.
pub fn quotes_of(bid: Cents, offer: Cents, away: Away) -> Quotes
    ensures { result ≡ quotes_of bid.0 offer.0 away }
{
    Quotes {
        nbb: higher_bid(bid, away.bid),
        nbo: lower_offer(offer, away.offer),
        away,
    }
}
