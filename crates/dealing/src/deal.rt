// An entry, dealt with: turned down, cancelling, resting or trading.
ghost use Rattle.std.specs.Prelude.{◌≡◌, List, ℕ, ◌<◌};
ghost use Rattle.units.specs.Units.{tenants};
ghost use Rattle.entry.specs.Refusals.{turn_down_number};
ghost use Rattle.judge.specs.Dispositions.{disposition_number};
ghost use Rattle.book.specs.Lent.{book_in};
ghost use Rattle.dealing.specs.Floor.{floor_of, met, made_of, made};
ghost use Rattle.dealing.specs.Deal.{turned_down, cancels, rests, trades, ordered, dealt};
ghost use Rattle.dealing.specs.Demands.{CanTrade, CanOrder, CanDeal};
ghost use Rattle.dealing.specs.TradeLaws.{disposed};
ghost use Rattle.book.specs.Book.{Book as Book·given};
ghost use Rattle.dealing.specs.declared.Series.{Series as Series·given};

use crate::settle::settle_in_reach;
use crate::{Came, Dealt, Series};
use book::lookup::Lost;
use book::{Book, Records};
use checks::Standing;
use entry::best_quotes::quotes_of;
use entry::refusal::TurnDown;
use entry::{CANCEL, Entry, Quotes};
use judge::Judged;
use judge::disposition::disposition;
use judge::outcome::Disposition;
use judge::verdict::judge;
use rows::passes::resting_rows;
use tally::Tallies;
use units::{Cents, Contracts};

// An entry turned down: nothing changes.
fn turned_down(tallies: Tallies, why: TurnDown) -> Dealt
    ensures { (s : Series·given) (n : ℕ) (b : Book·given) (was : List ℕ) → made_of result b was
        ≡ turned_down (floor_of s tallies n b) was (turn_down_number why) }
{
    Dealt {
        tallies,
        came: Came::TurnedDown(why),
    }
}

// A cancel frees the row of its order, if that order rests and is the tenant's; else it is turned down by what the
// number is.
fn cancel(tallies: Tallies, number: u64, t: usize, e: Entry, book: &mut Book) -> Dealt
    requires t_lt_tenants { t < tenants }
    ensures { (s : Series·given) (was : List ℕ) → made_of result (book_in book.new) was
        ≡ cancels (floor_of s tallies number (book_in book.old)) t was e }
{
    match book.find(t as u32, e.number, number) {
        Ok(row) => {
            book.free(row);
            Dealt {
                tallies,
                came: Came::Cancelled(e.number),
            }
        }
        Err(Lost::GivenOut) => turned_down(tallies, TurnDown::GivenOut),
        Err(Lost::NeverGiven) => turned_down(tallies, TurnDown::NeverGiven),
    }
}

// Before the opening a day limit simply rests.
fn rest_order(tallies: Tallies, number: u32, t: usize, e: Entry, book: &mut Book) -> Dealt
    requires t_lt_tenants { t < tenants }
    ensures { (s : Series·given) (was : List ℕ) → made_of result (book_in book.new) was
        ≡ rests (met s tallies number book.old) t was e }
{
    book.rest(e.side, e.price, e.size, t as u32, number);
    Dealt {
        tallies,
        came: Came::Accepted(number, Contracts(0), Disposition::Rests, 0),
    }
}

// What is left of an order rests at its limit, if its disposition says so, and else is cancelled.
fn dispose(d: Disposition, e: Entry, left: Contracts, t: usize, number: u32, book: &mut Book)
    requires t_lt_tenants { t < tenants }
    ensures { book_in book.new ≡ disposed (disposition_number d) e left.0 t number (book_in book.old) }
{
    if d == Disposition::Rests {
        book.rest(e.side, e.price, left, t as u32, number);
    }
}

// Once open, an order trades with what rests within its bound, and what is left of it is disposed of.
fn trade_order(
    series: Series,
    tallies: Tallies,
    number: u32,
    t: usize,
    e: Entry,
    bound: Cents,
    quotes: Quotes,
    book: &mut Book,
    records: &mut Records,
) -> Dealt
    requires { CanTrade (met series tallies number book.old) t e quotes records.old }
    ensures { made result book.new records.new
        ≡ trades (met series tallies number book.old) t e bound records.old }
{
    let done = settle_in_reach(
        tallies,
        series.terms.allocation,
        t,
        e,
        bound,
        quotes,
        book,
        records,
    );
    let left = Contracts(e.size.0 - done.filled.0);
    let d = disposition(e, quotes, series.terms, left);
    dispose(d, e, left, t, number, book);
    let counted = done.tallies;
    Dealt {
        tallies: counted,
        came: Came::Accepted(number, done.filled, d, done.fills),
    }
}

// A new order, by its verdict: turned down, or at rest before the opening, or traded after it.
fn order(
    series: Series,
    tallies: Tallies,
    number: u64,
    t: usize,
    e: Entry,
    book: &mut Book,
    records: &mut Records,
) -> Dealt
    requires { CanOrder (met series tallies number book.old) t e records.old }
    ensures { made result book.new records.new
        ≡ ordered (met series tallies number book.old) t records.old e }
{
    let bid = book.best_bid();
    let offer = book.best_offer();
    let quotes = quotes_of(bid, offer, series.away);
    let resting = resting_rows(&book.owners, &book.sizes, t as u32);
    let standing = Standing {
        opened: series.opened,
        resting,
        next: number,
    };
    match judge(e, quotes, series.terms, standing) {
        Err(why) => turned_down(tallies, why),
        Ok(Judged::Rests(o)) => rest_order(tallies, number as u32, t, o, book),
        Ok(Judged::Trades(o, bound)) => trade_order(
            series,
            tallies,
            number as u32,
            t,
            o,
            bound,
            quotes,
            book,
            records,
        ),
    }
}

// An entry of tenant t, which is a cancel or a new order; an order that is accepted is given the number. Fill records
// are written as plain numbers, four to a record.
pub fn deal(
    series: Series,
    tallies: Tallies,
    number: u64,
    t: usize,
    e: Entry,
    book: &mut Book,
    records: &mut Records,
) -> Dealt
    requires { CanDeal (met series tallies number book.old) t e records.old }
    ensures { made result book.new records.new
        ≡ dealt (met series tallies number book.old) t records.old e }
{
    if e.kind == CANCEL {
        cancel(tallies, number, t, e, book)
    } else {
        order(series, tallies, number, t, e, book, records)
    }
}
