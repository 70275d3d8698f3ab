// The five events, each run on the market and printed.
ghost use Rattle.std.specs.Prelude.{◌≡◌, List, ℕ, ◌*◌, min};
ghost use Rattle.book.specs.Book.{Book as Book·given};
ghost use Rattle.book.specs.Lent.{book_in};
ghost use Rattle.lines.specs.Laying.{Room};
ghost use Rattle.entry.specs.Numbers.{entry_numbers};
ghost use Rattle.entry.specs.Refusals.{code_of};
ghost use Rattle.session.specs.Market.{market_of, market_in};
ghost use Rattle.session.specs.Sound.{LanesSound, BookSound};
ghost use Rattle.replay.specs.Listing.{longest_event};
ghost use Rattle.replay.specs.Replay.{settings_printed, away_printed, submit_printed, turn_printed, open_printed, event_printed, CanReplay, Replayed};

use crate::listing::{open_lines, turn_lines};
use book::Book;
use entry::refusal::Refusal;
use entry::{Away, ENTRY_NUMBERS, Settings};
use fills::on_row::{open_on_row, turn_on_row};
use lanes::Entries;
use lines::Output;
use lines::line::{away_line, set_line, submit_line};
use session::Session;
use tape::Event;

// The code of a call's answer: 0, or the number of its refusal.
fn code(answer: Result<(), Refusal>) -> u32
    ensures { result ≡ code_of answer }
{
    match answer {
        Ok(()) => 0,
        Err(why) => why.number(),
    }
}

fn settings_event(
    s: &mut Session,
    given: Settings,
    book: &mut Book,
    entries: &mut Entries,
    out: &mut Output,
    at: usize,
) -> usize
    requires { CanReplay (market_in s.old book.old entries.old) out.old at }
    ensures { Replayed (settings_printed (market_in s.old book.old entries.old) given)
        out.old at (market_in s.new book.new entries.new) out.new result }
{
    let answer = s.settings(given, book, entries);
    set_line(out, at, code(answer))
}

fn away_event(s: &mut Session, quote: Away, out: &mut Output, at: usize) -> usize
    requires { Room out.old at longest_event }
    ensures { (b : Book·given) (entries : List ℕ) → CanReplay (market_of s.old b entries) out.old at
        → Replayed (away_printed (market_of s.old b entries) quote) out.old at (market_of s.new b entries) out.new result }
{
    let answer = s.away(quote.bid, quote.offer);
    away_line(out, at, code(answer))
}

// The numbers of so many entries, as far as they are lent.
fn numbers_of(count: u32, lent: usize) -> usize
    ensures { result ≡ min (entry_numbers * count) lent }
{
    (ENTRY_NUMBERS * count as usize).min(lent)
}

fn submit_event(
    s: &mut Session,
    tenant: u32,
    count: u32,
    given: &[u32],
    entries: &mut Entries,
    out: &mut Output,
    at: usize,
) -> usize
    requires lanes_sound { LanesSound s.old entries.old }
    requires room { Room out.old at longest_event }
    ensures { (b : Book·given) → CanReplay (market_of s.old b entries.old) out.old at
        → Replayed (submit_printed (market_of s.old b entries.old) tenant count given.now)
        out.old at (market_of s.new b entries.new) out.new result }
{
    let n = numbers_of(count, given.len());
    let answer = s.submit(tenant, count, &given[..n], entries);
    submit_line(out, at, code(answer))
}

fn turn_event(
    s: &mut Session,
    book: &mut Book,
    entries: &Entries,
    out: &mut Output,
    at: usize,
) -> usize
    requires { CanReplay (market_in s.old book.old entries.now) out.old at }
    ensures { Replayed (turn_printed (market_in s.old book.old entries.now))
        out.old at (market_in s.new book.new entries.now) out.new result }
{
    let done = turn_on_row(s, book, entries);
    turn_lines(done.returned, done.row, out, at)
}

fn open_event(s: &mut Session, book: &mut Book, out: &mut Output, at: usize) -> usize
    requires book_sound { BookSound s.old (book_in book.old) }
    requires room { Room out.old at longest_event }
    ensures { (entries : List ℕ) → CanReplay (market_in s.old book.old entries) out.old at
        → Replayed (open_printed (market_in s.old book.old entries))
        out.old at (market_in s.new book.new entries) out.new result }
{
    let before = book.sizes;
    let done = open_on_row(s, book);
    open_lines(
        done.returned,
        &before,
        &book.sizes,
        &book.numbers,
        done.row,
        out,
        at,
    )
}

// One event of a tape, run on the market and printed from a place of the output on.
pub fn event(
    s: &mut Session,
    e: Event,
    given: &[u32],
    book: &mut Book,
    entries: &mut Entries,
    out: &mut Output,
    at: usize,
) -> usize
    requires { CanReplay (market_in s.old book.old entries.old) out.old at }
    ensures { Replayed (event_printed (market_in s.old book.old entries.old) e given.now)
        out.old at (market_in s.new book.new entries.new) out.new result }
{
    match e {
        Event::Settings(asked) => settings_event(s, asked, book, entries, out, at),
        Event::Away(quote) => away_event(s, quote, out, at),
        Event::Submit(tenant, count) => submit_event(s, tenant, count, given, entries, out, at),
        Event::Turn => turn_event(s, book, entries, out, at),
        Event::Open => open_event(s, book, out, at),
    }
}
