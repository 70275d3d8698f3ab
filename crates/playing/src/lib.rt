// A tape played through a window: what the program does between two system calls.
#![tactic(auto)]

ghost use Rattle.std.specs.Prelude.{◌≡◌};
ghost use Rattle.session.specs.Market.{market_in};
ghost use Rattle.playing.specs.Playing.{leaving, play_of, CanPlay, PlaysTo};

use book::Book;
use lanes::Entries;
use lines::{OUTPUT, Output};
use replay::LONGEST_EVENT;
use replay::stepping::{Ending, step};
use session::Session;
use tape::MOST_BYTES;
use window::is_short;

// What comes next: more of the tape is read, what is printed is written out, or nothing, since the tape ended.
#[derive(Clone, Copy)]
pub enum Next {
    Read,
    Write,
    Stop(Ending),
}

// What playing leaves beside the market: the place after what was printed, the place of the next event, and what comes next.
#[derive(Clone, Copy)]
pub struct Played {
    pub at: usize,
    pub from: usize,
    pub next: Next,
}

fn leave(at: usize, from: usize, next: Next) -> Played
    ensures { result ≡ leaving at from next }
{
    Played {
        at: at,
        from: from,
        next: next,
    }
}

// Runs and prints the events from the place `from` on of the tape's bytes at hand, of which the first stands at the
// place `base` of the tape: until too few are at hand although the tape may go on, or the output has no room for the
// longest event, or the tape's last line is printed.
pub fn play(
    s: &mut Session,
    bytes: &[u8],
    more: bool,
    base: u64,
    from: usize,
    given: &mut [u32],
    book: &mut Book,
    entries: &mut Entries,
    out: &mut Output,
    at: usize,
) -> Played
    requires { CanPlay (market_in s.old book.old entries.old) bytes.now base from out.old at }
    ensures { PlaysTo
        (play_of bytes.now more base (market_in s.old book.old entries.old) given.old from at)
        bytes.now out.old at result
        (market_in s.new book.new entries.new) given.new out.new }
{
    let mut from = from;
    let mut at = at;
    loop {
        if is_short(from, bytes.len(), more, MOST_BYTES) {
            return leave(at, from, Next::Read);
        }
        if OUTPUT - at < LONGEST_EVENT {
            return leave(at, from, Next::Write);
        }
        let done = step(s, bytes, from, base, given, book, entries, out, at);
        from = done.from;
        at = done.at;
        if let Some(how) = done.ending {
            return leave(at, from, Next::Stop(how));
        }
    }
}
