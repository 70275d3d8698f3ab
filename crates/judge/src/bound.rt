// The bound within which an order trades.
ghost use Rattle.std.specs.Prelude.{◌≡◌};
ghost use Rattle.units.specs.Cases.{lower_if, higher_if};
ghost use Rattle.judge.specs.Bound.{buy_bound, sell_bound, bound_of};

use entry::words::{plus, wide};
use entry::{Entry, LIMIT, MARKET, Quotes, Terms};
use rows::{BUY, HIGHEST};
use units::Cents;

// The lesser of the bound and, where the test holds, a price; a price and a buffer together may be wide.
fn lower(test: bool, price: u64, bound: Cents) -> Cents
    ensures { result.0 ≡ lower_if test price bound.0 }
{
    if test {
        Cents(price.min(wide(bound)) as u32)
    } else {
        bound
    }
}

// The greater of the bound and, where the test holds, a price.
fn higher(test: bool, price: Cents, bound: Cents) -> Cents
    ensures { result.0 ≡ higher_if test price.0 bound.0 }
{
    if test {
        Cents(price.0.max(bound.0))
    } else {
        bound
    }
}

// A market buy of a put stays below the strike.
fn buy_bound(e: Entry, q: Quotes, t: Terms) -> Cents
    ensures { result.0 ≡ buy_bound e q t }
{
    let below_strike = u64::from(t.strike.0.saturating_sub(1));
    let put = lower(e.kind == MARKET && t.put, below_strike, Cents(HIGHEST));
    let drill = lower(0 < q.nbo.0, plus(q.nbo, t.drill), put);
    let away = lower(0 < q.away.offer.0, wide(q.away.offer), drill);
    lower(e.kind == LIMIT, wide(e.price), away)
}

// NBB less the buffer counts only where a price is left of it.
fn sell_bound(e: Entry, q: Quotes, t: Terms) -> Cents
    ensures { result.0 ≡ sell_bound e q t }
{
    let drill = higher(
        t.drill.0 < q.nbb.0,
        Cents(q.nbb.0.saturating_sub(t.drill.0)),
        Cents(1),
    );
    let away = higher(0 < q.away.bid.0, q.away.bid, drill);
    higher(e.kind == LIMIT, e.price, away)
}

// The worst price at which an order trades.
pub(crate) fn bound(e: Entry, q: Quotes, t: Terms) -> Cents
    ensures { result ≡ bound_of e q t }
{
    if e.side == BUY {
        buy_bound(e, q, t)
    } else {
        sell_bound(e, q, t)
    }
}
