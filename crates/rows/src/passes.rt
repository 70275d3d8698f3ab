// Passes over the rows: each reads a few of their columns and answers one number.
ghost use Rattle.std.specs.Prelude.{◌≡◌};
ghost use Rattle.units.specs.Lent.{found};
ghost use Rattle.rows.specs.Rows.{rows};
ghost use Rattle.rows.specs.Passes.{highest_buy, lowest_sell, resting_within, resting_rows, order_row, free_row};

use crate::row::{buy_price, is_order, open_size, rests_for, sell_price};
use crate::{Column, NO_PRICE, ROWS};
use units::{Cents, Contracts, Total};

// The highest resting buy, 0 where there is none.
pub fn highest_buy(sides: &Column, prices: &Column, sizes: &Column) -> Cents
    ensures { result.0 ≡ highest_buy rows (found sides) (found prices) (found sizes) }
{
    let mut most: u32 = 0;
    for i in 0..ROWS {
        let bid = buy_price(sides[i], Cents(prices[i]), Contracts(sizes[i]));
        most = most.max(bid.0);
    }
    Cents(most)
}

// The lowest resting sell, above every price where there is none.
pub fn lowest_sell(sides: &Column, prices: &Column, sizes: &Column) -> Cents
    ensures { result.0 ≡ lowest_sell rows (found sides) (found prices) (found sizes) }
{
    let mut least: u32 = NO_PRICE;
    for i in 0..ROWS {
        let offer = sell_price(sides[i], Cents(prices[i]), Contracts(sizes[i]));
        least = least.min(offer.0);
    }
    Cents(least)
}

// Contracts that may be traded on a side within a bound.
pub fn resting_within(
    side: u32,
    bound: Cents,
    sides: &Column,
    prices: &Column,
    sizes: &Column,
) -> Total
    ensures { result.0 ≡ resting_within rows (found sides) (found prices) (found sizes) side bound.0 }
{
    let mut sum: u64 = 0;
    for i in 0..ROWS {
        let tradable = open_size(side, bound, sides[i], Cents(prices[i]), Contracts(sizes[i]));
        sum += u64::from(tradable.0);
    }
    Total(sum)
}

// How many rows a tenant has resting.
pub fn resting_rows(owners: &Column, sizes: &Column, tenant: u32) -> u32
    ensures { result ≡ resting_rows rows (found owners) (found sizes) tenant }
{
    let mut count: u32 = 0;
    for i in 0..ROWS {
        count += u32::from(rests_for(tenant, owners[i], Contracts(sizes[i])));
    }
    count
}

// The row of a tenant's resting order, past the last where that number does not rest or is not that tenant's.
pub fn order_row(
    owners: &Column,
    numbers: &Column,
    sizes: &Column,
    tenant: u32,
    number: u32,
) -> usize
    ensures { result ≡ order_row rows (found owners) (found numbers) (found sizes) tenant number }
{
    for i in 0..ROWS {
        if is_order(tenant, number, owners[i], numbers[i], Contracts(sizes[i])) {
            return i;
        }
    }
    ROWS
}

// The first free row, past the last where there is none.
pub fn free_row(sizes: &Column) -> usize
    ensures { result ≡ free_row rows (found sizes) }
{
    for i in 0..ROWS {
        if sizes[i] == 0 {
            return i;
        }
    }
    ROWS
}
