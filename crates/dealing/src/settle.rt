// What an order that trades makes of the book, the records and the tallies, before what is left of it is disposed of.
ghost use Rattle.std.specs.Prelude.{◌≡◌};
ghost use Rattle.book.specs.Lent.{book_in};
ghost use Rattle.book.specs.Trading.{after_trade, trade_written};
ghost use Rattle.dealing.specs.Settle.{other_side, opposite, Settles, settled_of};
ghost use Rattle.dealing.specs.Reach.{Quoted, out_of_reach};

use crate::credit::{credit, credit_row};
use book::{Book, Records};
use entry::{Entry, Quotes};
use rows::{BUY, ROWS, SELL};
use tally::Tallies;
use units::{Cents, Contracts};

// The tallies after the trade, contracts filled, and how many fill records were written.
#[derive(Clone, Copy)]
pub struct Settled {
    pub tallies: Tallies,
    pub filled: Contracts,
    pub fills: usize,
}

// The side that an order trades with.
fn other_side(side: u32) -> u32
    ensures { result ≡ other_side side }
{
    if side == BUY { SELL } else { BUY }
}

// The order trades with opposite rows within its bound; each tenant's tally is added to, the incoming order's and those
// of the rows that traded. An order that fills nothing leaves the tallies as they are, without a pass over the rows.
fn settle(
    tallies: Tallies,
    allocation: u32,
    t: usize,
    e: Entry,
    bound: Cents,
    book: &mut Book,
    records: &mut Records,
) -> Settled
    requires { Settles tallies t e (book_in book.old) records.old }
    ensures numbers_value { book_in book.new
        ≡ after_trade (book_in book.old) (opposite e) bound.0 e.size.0 allocation }
    ensures records_after { records.new
        ≡ trade_written (book_in book.old) (opposite e) bound.0 e.size.0 allocation records.old }
    ensures value { result ≡ settled_of tallies t e (book_in book.old) bound.0 allocation }
{
    let mut shared = [0; ROWS];
    let side = other_side(e.side);
    let done = book.trade(allocation, side, bound, e.size, &mut shared, records);
    let filled = done.filled;
    if filled.0 == 0 {
        return Settled {
            tallies,
            filled,
            fills: done.fills,
        };
    }
    let own = credit_row(tallies, e.side, t as u32, filled.0);
    let all = credit(own, &book.sides, &book.owners, &shared);
    Settled {
        tallies: all,
        filled,
        fills: done.fills,
    }
}

// Whether an order reaches no resting row: the best quote that it could meet is beyond its bound, or there is none.
fn out_of_reach(side: u32, bound: Cents, q: Quotes) -> bool
    ensures { result ≡ out_of_reach side bound.0 q }
{
    if side == BUY {
        q.nbo.0 == 0 || bound.0 < q.nbo.0
    } else {
        q.nbb.0 == 0 || q.nbb.0 < bound.0
    }
}

// As `settle`. Most orders reach no resting row, and the quotes tell: these settle nothing, without a pass over the
// rows.
pub(crate) fn settle_in_reach(
    tallies: Tallies,
    allocation: u32,
    t: usize,
    e: Entry,
    bound: Cents,
    quotes: Quotes,
    book: &mut Book,
    records: &mut Records,
) -> Settled
    requires settles { Settles tallies t e (book_in book.old) records.old }
    requires quoted { Quoted (book_in book.old) quotes }
    ensures numbers_value { book_in book.new
        ≡ after_trade (book_in book.old) (opposite e) bound.0 e.size.0 allocation }
    ensures records_after { records.new
        ≡ trade_written (book_in book.old) (opposite e) bound.0 e.size.0 allocation records.old }
    ensures value { result ≡ settled_of tallies t e (book_in book.old) bound.0 allocation }
{
    if out_of_reach(e.side, bound, quotes) {
        return Settled {
            tallies,
            filled: Contracts(0),
            fills: 0,
        };
    }
    settle(tallies, allocation, t, e, bound, book, records)
}
