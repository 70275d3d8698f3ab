// What one row counts for, by its side, its price, its size, its owner and its order number.
ghost use Rattle.std.specs.Prelude.{◌≡◌, ltb};
ghost use Rattle.rows.specs.Rows.{key_of, within, open_size, buy_price, sell_price, rests_for, is_order};

use crate::{BUY, HIGHEST, NO_PRICE, SELL};
use units::{Cents, Contracts};

// A lower key is a better price.
pub fn key(side: u32, price: Cents) -> u32
    ensures { result ≡ key_of side price.0 }
{
    if side == SELL {
        price.0
    } else {
        HIGHEST.saturating_sub(price.0)
    }
}

// Whether a price is no worse than the bound.
fn within(side: u32, price: Cents, bound: Cents) -> bool
    ensures { result ≡ within side price.0 bound.0 }
{
    if side == SELL {
        price.0 <= bound.0
    } else {
        bound.0 <= price.0
    }
}

// What an order may trade with of a row: its size, if it is on the side and within the bound.
pub fn open_size(side: u32, bound: Cents, row_side: u32, price: Cents, size: Contracts) -> Contracts
    ensures { result.0 ≡ open_size side bound.0 row_side price.0 size.0 }
{
    if row_side == side && within(side, price, bound) {
        size
    } else {
        Contracts(0)
    }
}

// Whether an order may trade with a row: it is on the side, within the bound, and not free.
pub fn reachable(side: u32, bound: Cents, row_side: u32, price: Cents, size: Contracts) -> bool
    ensures { result ≡ ltb 0 (open_size side bound.0 row_side price.0 size.0) }
{
    0 < open_size(side, bound, row_side, price, size).0
}

// A row's price if it is a resting buy, else 0.
pub(crate) fn buy_price(side: u32, price: Cents, size: Contracts) -> Cents
    ensures { result.0 ≡ buy_price side price.0 size.0 }
{
    if side == BUY && 0 < size.0 {
        price
    } else {
        Cents(0)
    }
}

// A row's price if it is a resting sell, else above every price.
pub(crate) fn sell_price(side: u32, price: Cents, size: Contracts) -> Cents
    ensures { result.0 ≡ sell_price side price.0 size.0 }
{
    if side == SELL && 0 < size.0 {
        price
    } else {
        Cents(NO_PRICE)
    }
}

// Whether a row rests for a tenant.
pub(crate) fn rests_for(tenant: u32, owner: u32, size: Contracts) -> bool
    ensures { result ≡ rests_for tenant owner size.0 }
{
    0 < size.0 && owner == tenant
}

// Whether a row is the resting order of that number, and that tenant's.
pub(crate) fn is_order(
    tenant: u32,
    number: u32,
    owner: u32,
    row_number: u32,
    size: Contracts,
) -> bool
    ensures { result ≡ is_order tenant number owner row_number size.0 }
{
    rests_for(tenant, owner, size) && row_number == number
}
