// The matching crate: what an incoming order trades with the resting rows, what rests and what is cancelled, what the
// number of an order says, and the fill records.
#![tactic(auto)]

pub mod lookup;
pub mod quotes;
pub mod records;
pub mod resting;
pub mod shares;
pub mod trading;

ghost use Rattle.std.specs.Prelude.{◌≡◌};
ghost use Rattle.rows.specs.Rows.{rows};
ghost use Rattle.book.specs.Book.{empty_book};
ghost use Rattle.book.specs.Lent.{book_in};

use rows::Column;
use units::{Cents, Contracts};

// The book: row i is what stands at place i of each column. It is lent to whatever reads or changes it.
#[derive(Drop)]
pub struct Book {
    pub sides: Column,
    pub prices: Column,
    pub sizes: Column,
    pub owners: Column,
    pub numbers: Column,
}

impl Book {
    // A book in which nothing rests.
    pub fn new() -> Book
        ensures { book_in result ≡ empty_book rows }
    {
        Book {
            sides: [0u32; 216],
            prices: [0u32; 216],
            sizes: [0u32; 216],
            owners: [0u32; 216],
            numbers: [0u32; 216],
        }
    }
}

// One fill: order number, tenant, quantity, price.
#[derive(Clone, Copy)]
pub struct Fill {
    pub number: u32,
    pub tenant: u32,
    pub quantity: Contracts,
    pub price: Cents,
}

// The fill records that a caller lends, as plain numbers: order number, tenant, quantity and price of each in turn, for
// every row of the book.
pub type Records = [u32; 864];
