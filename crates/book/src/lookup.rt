// What the number of an order says when a tenant looks it up.
ghost use Rattle.std.specs.Prelude.{◌≡◌};
ghost use Rattle.book.specs.Lent.{book_in};
ghost use Rattle.book.specs.Lookup.{found};

use crate::Book;
use rows::ROWS;
use rows::passes::order_row;

// Why no row has the order: its number has been given out since the reset, and does not rest for this tenant; or it was
// never given.
#[derive(Clone, Copy, PartialEq, Eq)]
pub enum Lost {
    GivenOut,
    NeverGiven,
}

impl Book {
    // A tenant's lookup of a number, where `next` is the number that the next accepted order is given: the row
    // in which it rests.
    pub fn find(&self, tenant: u32, number: u32, next: u64) -> Result<usize, Lost>
        ensures { result ≡ found (book_in self.now) next tenant number }
    {
        let row = order_row(&self.owners, &self.numbers, &self.sizes, tenant, number);
        if row < ROWS {
            Ok(row)
        } else if u64::from(number) < next {
            Err(Lost::GivenOut)
        } else {
            Err(Lost::NeverGiven)
        }
    }
}
