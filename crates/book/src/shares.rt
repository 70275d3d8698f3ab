// What each row trades with an order.
ghost use Rattle.std.specs.Prelude.{◌≡◌};
ghost use Rattle.units.specs.Places.{table};
ghost use Rattle.rows.specs.Rows.{rows};
ghost use Rattle.book.specs.Lent.{book_in};
ghost use Rattle.book.specs.Book.{within_bound};
ghost use Rattle.book.specs.Allocation.{fill, class_of};
ghost use Rattle.book.specs.Trading.{reach};
ghost use Rattle.book.specs.Fit.{FitBook};

use crate::Book;
use allocation::reach::{edge_of, in_line};
use allocation::shares::{by_time, in_proportion, sharing};
use rows::Column;
use units::{Cents, Contracts, Total};

// Allocation by time.
pub const TIME: u32 = 1;

impl Book {
    // What each row trades with an order of q contracts, where `all` may be traded.
    pub fn shares(
        &self,
        allocation: u32,
        side: u32,
        bound: Cents,
        q: Contracts,
        all: Total,
    ) -> Column
        requires fit { FitBook (book_in self.now) }
        requires all_value { all.0 ≡ within_bound (book_in self.now) side bound.0 }
        ensures { result ≡ table (fill (reach (book_in self.now) side bound.0) q.0 (class_of allocation)) rows }
    {
        let (sides, prices, sizes, numbers) = (
            &self.sides,
            &self.prices,
            &self.sizes,
            &self.numbers,
        );
        let m = edge_of(side, bound, q, all, sides, prices, sizes);
        if allocation == TIME {
            let line = in_line(side, bound, m, sides, prices, sizes, numbers);
            by_time(side, bound, m, line, sides, prices, sizes, numbers)
        } else {
            let t = sharing(side, bound, m, sides, prices, sizes);
            in_proportion(side, bound, t, sides, prices, sizes, numbers)
        }
    }
}
