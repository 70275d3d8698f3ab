// What a new order is turned down for.
ghost use Rattle.std.specs.Prelude.{◌≡◌, drop};
ghost use Rattle.units.specs.Cases.{first_of};
ghost use Rattle.entry.specs.Refusals.{turned_down_by};
ghost use Rattle.checks.specs.TurnDown.{not_yet, off_grid, at_strike, no_offer, unbid, no_bid, converts, as_judged, above_percent, too_wide, far_buy};
ghost use Rattle.checks.specs.TurnDown.{far_sell, far_price, might_rest, no_room, used_up, turn_downs, turn_down};

use crate::Standing;
use entry::refusal::TurnDown;
use entry::words::{plus, wide};
use entry::{DAY, Entry, LIMIT, MARKET, NOW, Quotes, Terms};
use rows::{BUY, LAST_NUMBER, ROWS_A_TENANT, SELL};
use units::Cents;

// Without a bid, a market sell is converted where the offer is at most this, in cents.
const LOW_OFFER: u32 = 50;

// A width is never above this percentage of the mean of the two quotes.
const WIDEST_PERCENT: u32 = 200;

// 10: before the opening nothing trades, so market orders and orders for now have no use.
fn not_yet(e: Entry, s: Standing) -> bool
    ensures { result ≡ not_yet e s }
{
    !s.opened && (e.kind == MARKET || e.life == NOW)
}

// 11: a limit that the step at its price does not divide.
fn off_grid(e: Entry, t: Terms) -> bool
    ensures { result ≡ off_grid e t }
{
    e.kind == LIMIT && !t.grid.on(e.price)
}

// 12: a put is worth less than its strike, so no buy limit is to reach it.
fn at_strike(e: Entry, t: Terms) -> bool
    ensures { result ≡ at_strike e t }
{
    e.kind == LIMIT && e.side == BUY && t.put && t.strike.0 <= e.price.0
}

// 13: a market buy that meets no offer.
fn no_offer(e: Entry, q: Quotes) -> bool
    ensures { result ≡ no_offer e q }
{
    e.kind == MARKET && e.side == BUY && q.nbo.0 == 0
}

// A market sell that meets no bid.
fn unbid(e: Entry, q: Quotes) -> bool
    ensures { result ≡ unbid e q }
{
    e.kind == MARKET && e.side == SELL && q.nbb.0 == 0
}

// 14: a market sell that meets no bid, under an offer too high to sell at the lowest step.
fn no_bid(e: Entry, q: Quotes) -> bool
    ensures { result ≡ no_bid e q }
{
    unbid(e, q) && LOW_OFFER < q.nbo.0
}

// The other half of 14: under a low offer the sell is worth the lowest step.
fn converts(e: Entry, q: Quotes) -> bool
    ensures { result ≡ converts e q }
{
    unbid(e, q) && q.nbo.0 <= LOW_OFFER
}

// The order from its conversion on: a limit sell at the grid's lowest step, or as it was.
pub fn as_judged(e: Entry, q: Quotes, t: Terms) -> Entry
    ensures { result ≡ as_judged e q t }
{
    if converts(e, q) {
        Entry {
            kind: LIMIT,
            price: t.grid.lowest(),
            ..e
        }
    } else {
        e
    }
}

// The product is made only where it is small: from the widest percentage on the test never holds.
fn above_percent(nbb: Cents, nbo: Cents, percent: u32) -> bool
    ensures { result ≡ above_percent nbb nbo percent }
{
    percent < WIDEST_PERCENT
        && u64::from(percent) * plus(nbb, nbo)
            < u64::from(WIDEST_PERCENT) * u64::from(nbo.0.saturating_sub(nbb.0))
}

// 15: the market is too wide for an order without a price.
fn too_wide(e: Entry, q: Quotes, t: Terms) -> bool
    ensures { result ≡ too_wide e q t }
{
    let width = q.nbo.0.saturating_sub(q.nbb.0);
    e.kind == MARKET
        && 0 < q.nbb.0
        && 0 < q.nbo.0
        && t.least.0 < width
        && (t.greatest.0 < width || above_percent(q.nbb, q.nbo, t.percent))
}

// A buy limit further above the NBO than the buffer.
fn far_buy(e: Entry, q: Quotes, t: Terms) -> bool
    ensures { result ≡ far_buy e q t }
{
    e.side == BUY && 0 < q.nbo.0 && plus(q.nbo, t.far) < wide(e.price)
}

// A sell limit further below the NBB than the buffer.
fn far_sell(e: Entry, q: Quotes, t: Terms) -> bool
    ensures { result ≡ far_sell e q t }
{
    e.side == SELL && 0 < q.nbb.0 && plus(e.price, t.far) < wide(q.nbb)
}

// 16: a limit so far through the market that it is taken for a slip; asked only once there is a market.
fn far_price(e: Entry, q: Quotes, t: Terms, s: Standing) -> bool
    ensures { result ≡ far_price e q t s }
{
    s.opened && e.kind == LIMIT && (far_buy(e, q, t) || far_sell(e, q, t))
}

// A limit for the day may come to rest, whatever it trades first.
fn might_rest(e: Entry) -> bool
    ensures { result ≡ might_rest e }
{
    e.kind == LIMIT && e.life == DAY
}

// 17: the tenant's own rows are all taken, however empty the book is.
fn no_room(e: Entry, s: Standing) -> bool
    ensures { result ≡ no_room e s }
{
    might_rest(e) && ROWS_A_TENANT <= s.resting
}

// 19: no order number is left.
fn used_up(s: Standing) -> bool
    ensures { result ≡ used_up s }
{
    LAST_NUMBER < s.next
}

// The checks from 15 on; from 16 on they look at the order as judged.
fn later(e: Entry, q: Quotes, t: Terms, s: Standing) -> Result<(), TurnDown>
    ensures { turned_down_by result ≡ first_of 0 (drop 5 (turn_downs e q t s)) }
{
    if too_wide(e, q, t) {
        return Err(TurnDown::TooWide);
    }
    let order = as_judged(e, q, t);
    if far_price(order, q, t, s) {
        return Err(TurnDown::FarPrice);
    }
    if no_room(order, s) {
        return Err(TurnDown::NoRoom);
    }
    if used_up(s) {
        return Err(TurnDown::UsedUp);
    }
    Ok(())
}

// Whether a new order is turned down, and why: the first test that holds ends the checking.
pub fn turn_down(e: Entry, q: Quotes, t: Terms, s: Standing) -> Result<(), TurnDown>
    ensures { turned_down_by result ≡ turn_down e q t s }
{
    if not_yet(e, s) {
        return Err(TurnDown::NotYet);
    }
    if off_grid(e, t) {
        return Err(TurnDown::OffGrid);
    }
    if at_strike(e, t) {
        return Err(TurnDown::AtStrike);
    }
    if no_offer(e, q) {
        return Err(TurnDown::NoOffer);
    }
    if no_bid(e, q) {
        return Err(TurnDown::NoBid);
    }
    later(e, q, t, s)
}
