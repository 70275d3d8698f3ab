// The calls turn and open with their fill records lent as a row of structs.
#![tactic(auto)]

pub mod on_row;

ghost use Rattle.std.specs.Prelude.{◌≡◌, List, ℕ, ◌<◌};
ghost use Rattle.rows.specs.Rows.{rows};
ghost use Rattle.book.specs.Fills.{fill_at, stored, Fits};
ghost use Rattle.book.specs.Lent.{book_in};
ghost use Rattle.session.specs.Market.{market_in};
ghost use Rattle.session.specs.TurnAnswer.{turn_answer_of};
ghost use Rattle.session.specs.OpenAnswer.{open_answer_of};
ghost use Rattle.session.specs.Sound.{Sound, BookSound};
ghost use Rattle.session.specs.Turn.{printed, fills_in};
ghost use Rattle.session.specs.Open.{printed as printed_open, fills_in as fills_opened};
ghost use Rattle.fills.specs.Calls.{turn_kept, turn_with, open_kept, open_with};

use book::records::FIELDS;
use book::{Book, Fill, Records};
use entry::refusal::Refusal;
use lanes::Entries;
use session::{Opening, Session, Taken};
use units::{Cents, Contracts};

// What the flat records begin with. Any number does, since only what is written is stored; with 0 the compiler would
// have them cleared byte by byte at each call.
const UNWRITTEN: u32 = 1;

// The fill whose four numbers stand at place i of the flat records.
fn record_at(records: &Records, i: usize) -> Fill
    requires { i < rows }
    ensures { result ≡ fill_at records.now i }
{
    let at = FIELDS * i;
    Fill {
        number: records[at],
        tenant: records[at + 1],
        quantity: Contracts(records[at + 2]),
        price: Cents(records[at + 3]),
    }
}

// How many fills a turn wrote.
pub fn turn_fills(answer: Result<Taken, Refusal>) -> usize
    ensures { result ≡ fills_in (turn_answer_of answer) }
{
    match answer {
        Ok(Taken::Accepted(_, _, _, _, fills)) => fills,
        _ => 0,
    }
}

// How many fills an opening wrote.
fn open_fills(answer: Result<Opening, Refusal>) -> usize
    ensures { result ≡ fills_opened (open_answer_of answer) }
{
    match answer {
        Ok(opening) => opening.fills,
        Err(_) => 0,
    }
}

// The first fills of the row are those of the flat records; the row's fills past them stay as found.
fn store_all(fills: &mut [Fill], records: &Records, count: usize)
    requires { Fits count fills.old }
    ensures { fills.new ≡ stored records.now count fills.old }
{
    for i in 0..count {
        fills[i] = record_at(records, i);
    }
}

// The call turn.
pub fn turn(
    s: &mut Session,
    book: &mut Book,
    entries: &Entries,
    fills: &mut [Fill],
) -> Result<Taken, Refusal>
    requires { Sound (market_in s.old book.old entries.now) }
    ensures exact { turn_kept s.new result (book_in book.new) entries.now fills.new
        ≡ turn_with (market_in s.old book.old entries.now) fills.old }
    ensures sound { Sound (market_in s.new book.new entries.now) }
    ensures values { printed (turn_answer_of result)
        ≡ printed (turn_with (market_in s.old book.old entries.now) fills.old).answer }
{
    let mut records = [UNWRITTEN; 864];
    let answer = s.turn_core(book, entries, fills.len(), &mut records);
    store_all(fills, &records, turn_fills(answer));
    answer
}

// The call open.
pub fn open(s: &mut Session, book: &mut Book, fills: &mut [Fill]) -> Result<Opening, Refusal>
    requires { BookSound s.old (book_in book.old) }
    ensures exact { (entries : List ℕ) → open_kept s.new result (book_in book.new) entries fills.new
        ≡ open_with (market_in s.old book.old entries) fills.old }
    ensures sound { (entries : List ℕ) → Sound (market_in s.old book.old entries)
        → Sound (market_in s.new book.new entries) }
    ensures values { (entries : List ℕ) → printed_open (open_answer_of result)
        ≡ printed_open (open_with (market_in s.old book.old entries) fills.old).answer }
{
    let mut records = [UNWRITTEN; 864];
    let answer = s.open_core(book, fills.len(), &mut records);
    store_all(fills, &records, open_fills(answer));
    answer
}
