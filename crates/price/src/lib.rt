// The opening price: the midpoint of the away quote, on the grid, the last print or the previous close, the first of
// them that is valid.
#![tactic(auto)]

mod amounts;

ghost use Rattle.std.specs.Prelude.{◌≡◌, ◌&&◌, leb};
ghost use Rattle.price.specs.Price.{near_either, valid, midpoint, usable, price_of};

use amounts::minimum_amount;
use units::Cents;
use units::grid::Grid;

// Where an opening price may come from, each 0 where absent, and the grid that the midpoint is a price of.
#[derive(Clone, Copy)]
pub struct Sources {
    pub grid: Grid,
    pub bid: Cents,
    pub offer: Cents,
    pub print: Cents,
    pub close: Cents,
}

// At most the minimum amount above the bid, or at most that below the offer.
fn near_either(bid: Cents, offer: Cents, price: Cents) -> bool
    ensures { result ≡ near_either bid.0 offer.0 price.0 }
{
    let amount = u64::from(minimum_amount(bid).0);
    u64::from(price.0) <= u64::from(bid.0) + amount
        || u64::from(offer.0) <= u64::from(price.0) + amount
}

// Whether a price lies within both quotes and near either.
fn between(bid: Cents, offer: Cents, price: Cents) -> bool
    ensures { result ≡ (leb bid.0 price.0 && leb price.0 offer.0 && near_either bid.0 offer.0 price.0) }
{
    bid.0 <= price.0 && price.0 <= offer.0 && near_either(bid, offer, price)
}

// Whether the away quote allows a price.
fn valid(bid: Cents, offer: Cents, price: Cents) -> bool
    ensures { result ≡ valid bid.0 offer.0 price.0 }
{
    match (0 < bid.0, 0 < offer.0) {
        (true, true) => between(bid, offer, price),
        (true, false) => bid.0 <= price.0,
        (false, true) => price.0 <= offer.0,
        (false, false) => true,
    }
}

// The highest grid price at or below halfway between the quotes; 0 if there is none, or a quote is absent.
fn midpoint(grid: Grid, bid: Cents, offer: Cents) -> Cents
    ensures { result.0 ≡ midpoint bid.0 offer.0 grid }
{
    if 0 < bid.0 && 0 < offer.0 {
        let half = (u64::from(bid.0) + u64::from(offer.0)) / 2;
        grid.at_or_below(Cents(half as u32))
    } else {
        Cents(0)
    }
}

// Whether a price is there and allowed.
fn usable(bid: Cents, offer: Cents, price: Cents) -> bool
    ensures { result ≡ usable bid.0 offer.0 price.0 }
{
    0 < price.0 && valid(bid, offer, price)
}

// The first valid of midpoint, last print and previous close.
pub fn choose(s: Sources) -> Option<Cents>
    ensures { result ≡ price_of s }
{
    let middle = midpoint(s.grid, s.bid, s.offer);
    if usable(s.bid, s.offer, middle) {
        Some(middle)
    } else if usable(s.bid, s.offer, s.print) {
        Some(s.print)
    } else if usable(s.bid, s.offer, s.close) {
        Some(s.close)
    } else {
        None
    }
}
