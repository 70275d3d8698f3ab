// What an opening cancels, told by what the fills left.
ghost use Rattle.std.specs.Prelude.{◌≡◌};
ghost use Rattle.units.specs.Lent.{found};
ghost use Rattle.units.specs.Places.{at, table};
ghost use Rattle.rows.specs.Rows.{rows};
ghost use Rattle.opening.specs.Opening.{buy_cut, sell_cut, kept_by, cut_of, kept_of};

use rows::passes::{highest_buy, lowest_sell, resting_within};
use rows::{BUY, Column, ROWS, SELL};
use units::{Cents, Contracts};

// Which rows are cancelled: buys from the lowest sell up, if buys remain that might have traded; sells from the highest
// buy down, if such sells do.
#[derive(Clone, Copy)]
pub struct Cut {
    pub buys: bool,
    pub lowest: Cents,
    pub sells: bool,
    pub highest: Cents,
}

fn cut_at(price: Cents, sides: &Column, prices: &Column, sizes: &Column) -> Cut
    ensures { result ≡ cut_of rows (found sides) (found prices) (found sizes) price.0 }
{
    let buys = resting_within(BUY, price, sides, prices, sizes);
    let sells = resting_within(SELL, price, sides, prices, sizes);
    let low = lowest_sell(sides, prices, sizes);
    let high = highest_buy(sides, prices, sizes);
    Cut {
        buys: 0 < buys.0,
        lowest: low,
        sells: 0 < sells.0,
        highest: high,
    }
}

// Whether a buy is cancelled.
fn buy_cut(cut: Cut, side: u32, price: Cents) -> bool
    ensures { result ≡ buy_cut cut side price.0 }
{
    side == BUY && cut.buys && cut.lowest.0 <= price.0
}

// Whether a sell is cancelled.
fn sell_cut(cut: Cut, side: u32, price: Cents) -> bool
    ensures { result ≡ sell_cut cut side price.0 }
{
    side == SELL && cut.sells && price.0 <= cut.highest.0
}

// What the cancels leave of a row.
fn kept(cut: Cut, side: u32, price: Cents, size: Contracts) -> Contracts
    ensures { result.0 ≡ kept_by cut side price.0 size.0 }
{
    if buy_cut(cut, side, price) || sell_cut(cut, side, price) {
        Contracts(0)
    } else {
        size
    }
}

// Cancels what would lock or cross the open book.
pub(crate) fn cancel(price: Cents, sides: &Column, prices: &Column, sizes: &mut Column)
    ensures { sizes.new ≡ table (kept_of rows (found sides) (found prices) (at sizes.old) price.0) rows }
{
    let cut = cut_at(price, sides, prices, sizes);
    for i in 0..ROWS {
        let left = kept(cut, sides[i], Cents(prices[i]), Contracts(sizes[i]));
        sizes[i] = left.0;
    }
}
