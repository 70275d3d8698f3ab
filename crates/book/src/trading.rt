// What an incoming order makes of the rows.
ghost use Rattle.std.specs.Prelude.{◌≡◌, ◌-◌, min};
ghost use Rattle.units.specs.Places.{at, table};
ghost use Rattle.rows.specs.Rows.{rows};
ghost use Rattle.book.specs.Lent.{book_in};
ghost use Rattle.book.specs.Trading.{traded, after_trade, trade_written};
ghost use Rattle.book.specs.Answers.{traded_of};
ghost use Rattle.book.specs.Fit.{FitBook};

use crate::{Book, Records};
use rows::passes::resting_within;
use rows::{Column, ROWS};
use units::{Cents, Contracts, Total};

// Contracts filled, and how many records were written.
#[derive(Clone, Copy)]
pub struct Traded {
    pub filled: Contracts,
    pub fills: usize,
}

// Takes what each row traded out of its size.
pub fn remove(quantities: &Column, sizes: &mut Column)
    ensures { sizes.new ≡ table (λ i. at sizes.old i - at quantities.now i) rows }
{
    for i in 0..ROWS {
        sizes[i] = sizes[i].saturating_sub(quantities[i]);
    }
}

// The lesser of an order's size and all that may be traded.
fn fillable(q: Contracts, all: Total) -> Contracts
    ensures { result.0 ≡ min q.0 all.0 }
{
    Contracts(u64::from(q.0).min(all.0) as u32)
}

impl Book {
    // An order trades with the rows of one side within its bound, best price first, by the class; what each row trades
    // and the records are written to the lent memory.
    pub fn trade(
        &mut self,
        allocation: u32,
        side: u32,
        bound: Cents,
        q: Contracts,
        shared: &mut Column,
        lent: &mut Records,
    ) -> Traded
        requires fit { FitBook (book_in self.old) }
        ensures numbers_value { book_in self.new ≡ after_trade (book_in self.old) side bound.0 q.0 allocation }
        ensures lent_after { lent.new ≡ trade_written (book_in self.old) side bound.0 q.0 allocation lent.old }
        ensures shared_after { shared.new ≡ table (traded (book_in self.old) side bound.0 q.0 allocation) rows }
        ensures value { result ≡ traded_of (book_in self.old) side bound.0 q.0 allocation }
    {
        let all = resting_within(side, bound, &self.sides, &self.prices, &self.sizes);
        if all.0 == 0 {
            *shared = [0; ROWS];
            return Traded {
                filled: Contracts(0),
                fills: 0,
            };
        }
        let quantities = self.shares(allocation, side, bound, q, all);
        *shared = quantities;
        let fills = self.record(&self.prices, shared, lent);
        remove(shared, &mut self.sizes);
        Traded {
            filled: fillable(q, all),
            fills,
        }
    }
}
