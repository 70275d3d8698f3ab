// What rests: an order takes the first free row, a cancel frees its row.
ghost use Rattle.std.specs.Prelude.{◌≡◌};
ghost use Rattle.book.specs.Book.{rested, freed};
ghost use Rattle.book.specs.Lent.{book_in};

use crate::Book;
use rows::ROWS;
use rows::passes::free_row;
use units::{Cents, Contracts};

impl Book {
    // An order rests in the first free row; a full book stays as it is.
    pub fn rest(&mut self, side: u32, price: Cents, size: Contracts, owner: u32, number: u32)
        ensures { book_in self.new ≡ rested (book_in self.old) side price.0 size.0 owner number }
    {
        let row = free_row(&self.sizes);
        if row < ROWS {
            self.sides[row] = side;
            self.prices[row] = price.0;
            self.sizes[row] = size.0;
            self.owners[row] = owner;
            self.numbers[row] = number;
        }
    }

    // A cancel frees the row; past the last there is none.
    pub fn free(&mut self, row: usize)
        ensures { book_in self.new ≡ freed (book_in self.old) row }
    {
        if row < ROWS {
            self.sizes[row] = 0;
        }
    }
}
