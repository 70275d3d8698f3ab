// The match of an opening at a price.
ghost use Rattle.std.specs.Prelude.{◌≡◌, ◌≤◌, min, max};
ghost use Rattle.units.specs.Lent.{found};
ghost use Rattle.units.specs.Places.{table};
ghost use Rattle.units.specs.Units.{most32};
ghost use Rattle.rows.specs.Rows.{rows};
ghost use Rattle.book.specs.Book.{within_bound};
ghost use Rattle.book.specs.Lent.{book_in};
ghost use Rattle.book.specs.Fit.{FitBook};
ghost use Rattle.opening.specs.Opening.{both_fill, matched, after_opening, opening_written};
ghost use Rattle.opening.specs.Answers.{matched_of};

use crate::cancels::cancel;
use book::shares::TIME;
use book::trading::remove;
use book::{Book, Records};
use rows::passes::resting_within;
use rows::{BUY, Column, ROWS, SELL};
use units::{Cents, Contracts, Total};

// Contracts matched, and how many records were written.
#[derive(Clone, Copy)]
pub struct Matched {
    pub volume: Contracts,
    pub fills: usize,
}

// Row by row the greater of two, where one of them is 0.
fn join(a: &Column, b: &Column) -> Column
    ensures { result ≡ table (λ i. max (found a i) (found b i)) rows }
{
    let mut out = [0; ROWS];
    for i in 0..ROWS {
        out[i] = a[i].max(b[i]);
    }
    out
}

// The lesser of what may be bought and what may be sold.
fn lesser_of(buys: Total, sells: Total) -> Contracts
    requires { min buys.0 sells.0 ≤ most32 }
    ensures { result.0 ≡ min buys.0 sells.0 }
{
    Contracts(buys.0.min(sells.0) as u32)
}

// What each row trades where both sides fill q contracts, by time in every class.
fn fills_at(book: &Book, price: Cents, q: Contracts, buys: Total, sells: Total) -> Column
    requires fit { FitBook (book_in book.now) }
    requires buys_value { buys.0 ≡ within_bound (book_in book.now) 1 price.0 }
    requires sells_value { sells.0 ≡ within_bound (book_in book.now) 2 price.0 }
    ensures { result ≡ table (both_fill (book_in book.now) price.0 q.0) rows }
{
    let bought = book.shares(TIME, BUY, price, q, buys);
    let sold = book.shares(TIME, SELL, price, q, sells);
    join(&bought, &sold)
}

// The opening at a price: each side fills the volume, what would lock or cross the book is cancelled; what each row
// trades and the records, all at the price, are written to the lent memory.
pub fn open_at(book: &mut Book, price: Cents, shared: &mut Column, lent: &mut Records) -> Matched
    requires fit { FitBook (book_in book.old) }
    ensures numbers_value { book_in book.new ≡ after_opening (book_in book.old) price.0 }
    ensures lent_after { lent.new ≡ opening_written (book_in book.old) price.0 lent.old }
    ensures shared_after { shared.new ≡ table (matched (book_in book.old) price.0) rows }
    ensures value { result ≡ matched_of (book_in book.old) price.0 }
{
    let buys = resting_within(BUY, price, &book.sides, &book.prices, &book.sizes);
    let sells = resting_within(SELL, price, &book.sides, &book.prices, &book.sizes);
    let q = lesser_of(buys, sells);
    let traded = fills_at(book, price, q, buys, sells);
    let paid = [price.0; ROWS];
    *shared = traded;
    let fills = book.record(&paid, shared, lent);
    remove(shared, &mut book.sizes);
    cancel(price, &book.sides, &book.prices, &mut book.sizes);
    Matched { volume: q, fills }
}
