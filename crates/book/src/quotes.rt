// The book's best prices, and whether they cross; whose the rows are, and their numbers, make no difference.
ghost use Rattle.std.specs.Prelude.{◌≡◌};
ghost use Rattle.units.specs.Units.{cents};
ghost use Rattle.book.specs.Book.{best_bid, best_offer, crosses};
ghost use Rattle.book.specs.Lent.{book_in};

use crate::Book;
use rows::HIGHEST;
use rows::passes::{highest_buy, lowest_sell};
use units::Cents;

impl Book {
    // The best bid, 0 where there is none.
    pub fn best_bid(&self) -> Cents
        ensures { result ≡ cents (best_bid (book_in self.now)) }
    {
        highest_buy(&self.sides, &self.prices, &self.sizes)
    }

    // The best offer, 0 where there is none.
    pub fn best_offer(&self) -> Cents
        ensures { result ≡ cents (best_offer (book_in self.now)) }
    {
        let low = lowest_sell(&self.sides, &self.prices, &self.sizes);
        if low.0 <= HIGHEST { low } else { Cents(0) }
    }

    // Whether some resting buy is at or above some resting sell.
    pub fn crosses(&self) -> bool
        ensures { result ≡ crosses (book_in self.now) }
    {
        let low = lowest_sell(&self.sides, &self.prices, &self.sizes);
        let high = self.best_bid();
        low.0 <= high.0
    }
}
