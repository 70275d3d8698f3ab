// An open: which way it goes, and the opening of a book at a price, with the tallies.
ghost use Rattle.std.specs.Prelude.{◌≡◌};
ghost use Rattle.book.specs.Lent.{book_in};
ghost use Rattle.opening.specs.Opening.{after_opening, opening_written};
ghost use Rattle.dealing.specs.Open.{CanOpen, counted_of, choice_in, way_of};
ghost use Rattle.dealing.specs.Way.{way_told};

use crate::Series;
use crate::credit::credit;
use book::{Book, Records};
use entry::refusal::Refusal;
use opening::matching::open_at;
use price::{Sources, choose};
use rows::ROWS;
use tally::Tallies;
use units::{Cents, Contracts};

// The first valid opening price by the grid, the away quote, the last print and the previous close.
fn choice(s: Series) -> Option<Cents>
    ensures { result ≡ choice_in s }
{
    choose(Sources {
        grid: s.terms.grid,
        bid: s.away.bid,
        offer: s.away.offer,
        print: s.terms.print,
        close: s.terms.close,
    })
}

// Which way an open goes: refused, in the order of checking; or at a price, asked for only where the book crosses; or
// quiet, where no resting buy is at or above a resting sell.
pub fn which_way(
    accepted: bool,
    s: Series,
    lent: usize,
    book: &Book,
) -> Result<Option<Cents>, Refusal>
    ensures { way_told result ≡ way_of accepted s (book_in book.now) lent }
{
    if !accepted {
        return Err(Refusal::NothingSet);
    }
    if s.opened {
        return Err(Refusal::AlreadyOpen);
    }
    if lent < ROWS {
        return Err(Refusal::FewRecords);
    }
    if !book.crosses() {
        return Ok(None);
    }
    match choice(s) {
        Some(price) => Ok(Some(price)),
        None => Err(Refusal::NoValidPrice),
    }
}

// The tallies after an opening, contracts matched, and how many fill records were written.
#[derive(Clone, Copy)]
pub struct Counted {
    pub tallies: Tallies,
    pub volume: Contracts,
    pub fills: usize,
}

// The book trades at the price and is rid of what would lock or cross it, and each row's contracts are counted for its
// owner.
pub fn open_book(tallies: Tallies, price: Cents, book: &mut Book, records: &mut Records) -> Counted
    requires { CanOpen tallies (book_in book.old) records.old }
    ensures numbers_value { book_in book.new ≡ after_opening (book_in book.old) price.0 }
    ensures records_after { records.new ≡ opening_written (book_in book.old) price.0 records.old }
    ensures value { result ≡ counted_of tallies (book_in book.old) price.0 }
{
    let mut shared = [0; ROWS];
    let done = open_at(book, price, &mut shared, records);
    let counted = credit(tallies, &book.sides, &book.owners, &shared);
    Counted {
        tallies: counted,
        volume: done.volume,
        fills: done.fills,
    }
}
