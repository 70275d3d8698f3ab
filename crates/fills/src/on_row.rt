// The calls turn and open with a row of their own: it is lent to the call, and returned beside what the call answered.
ghost use Rattle.std.specs.Prelude.{◌≡◌, List, ℕ};
ghost use Rattle.book.specs.Lent.{book_in};
ghost use Rattle.session.specs.Market.{market_in};
ghost use Rattle.session.specs.TurnAnswer.{turn_answer_of};
ghost use Rattle.session.specs.OpenAnswer.{open_answer_of};
ghost use Rattle.session.specs.Sound.{Sound, BookSound};
ghost use Rattle.session.specs.Turn.{printed};
ghost use Rattle.session.specs.Open.{printed as printed_open};
ghost use Rattle.fills.specs.Calls.{empty_row, turn_kept, turn_with, open_kept, open_with};

use crate::{open, turn};
use book::{Book, Fill};
use entry::refusal::Refusal;
use lanes::Entries;
use session::{Opening, Session, Taken};
use units::{Cents, Contracts};

// What a call returned, and the row of fills that it left.
#[derive(Clone, Copy)]
pub struct OnRow<T> {
    pub returned: T,
    pub row: [Fill; 216],
}

// The tenant of a fill with nothing in it: tenants are 0 to 8.
const NO_TENANT: u32 = 9;

// Fills with nothing in them.
pub(crate) fn no_fills() -> [Fill; 216]
    ensures { result ≡ empty_row }
{
    let none = Fill {
        number: 0,
        tenant: NO_TENANT,
        quantity: Contracts(0),
        price: Cents(0),
    };
    [none; 216]
}

// A turn, with a row of empty fills.
pub fn turn_on_row(
    s: &mut Session,
    book: &mut Book,
    entries: &Entries,
) -> OnRow<Result<Taken, Refusal>>
    requires { Sound (market_in s.old book.old entries.now) }
    ensures exact { turn_kept s.new result.returned (book_in book.new) entries.now result.row
        ≡ turn_with (market_in s.old book.old entries.now) empty_row }
    ensures sound { Sound (market_in s.new book.new entries.now) }
    ensures values { printed (turn_answer_of result.returned)
        ≡ printed (turn_with (market_in s.old book.old entries.now) empty_row).answer }
{
    let mut row = no_fills();
    let returned = turn(s, book, entries, &mut row);
    OnRow { returned, row }
}

// An open, with a row of empty fills.
pub fn open_on_row(s: &mut Session, book: &mut Book) -> OnRow<Result<Opening, Refusal>>
    requires { BookSound s.old (book_in book.old) }
    ensures exact { (entries : List ℕ) → open_kept s.new result.returned (book_in book.new) entries result.row
        ≡ open_with (market_in s.old book.old entries) empty_row }
    ensures sound { (entries : List ℕ) → Sound (market_in s.old book.old entries)
        → Sound (market_in s.new book.new entries) }
    ensures values { (entries : List ℕ) → printed_open (open_answer_of result.returned)
        ≡ printed_open (open_with (market_in s.old book.old entries) empty_row).answer }
{
    let mut row = no_fills();
    let returned = open(s, book, &mut row);
    OnRow { returned, row }
}
