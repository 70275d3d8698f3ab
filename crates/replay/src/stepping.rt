// One step along a tape: the event at a place is run and printed, or the tape's last line is.
ghost use Rattle.std.specs.Prelude.{◌+◌, ◌<◌, length};
ghost use Rattle.session.specs.Market.{market_in};
ghost use Rattle.replay.specs.Replay.{CanReplay};
ghost use Rattle.replay.specs.Stepping.{step_of, StepsTo};

use crate::events::event;
use book::Book;
use lanes::Entries;
use lines::Output;
use lines::line::{end_line, tape_line};
use session::Session;

// How a tape ended: between two events, or refused.
#[derive(Clone, Copy, PartialEq, Eq)]
pub enum Ending {
    Ended,
    Refused,
}

// What a step leaves beside the market: the place after what was printed, the place of the next event, and how the tape
// ended, or none where it goes on.
#[derive(Clone, Copy)]
pub struct Reached {
    pub at: usize,
    pub from: usize,
    pub ending: Option<Ending>,
}

// The event at the place `from` of the tape's bytes that are at hand, of which the first stands at the place `base` of
// the tape.
pub fn step(
    s: &mut Session,
    bytes: &[u8],
    from: usize,
    base: u64,
    given: &mut [u32],
    book: &mut Book,
    entries: &mut Entries,
    out: &mut Output,
    at: usize,
) -> Reached
    requires can_replay { CanReplay (market_in s.old book.old entries.old) out.old at }
    requires bytes_bound { base + length bytes.now < 18446744073709551616 }
    ensures { StepsTo
        (step_of (market_in s.old book.old entries.old) bytes.now from base given.old)
        bytes.now from out.old at result
        (market_in s.new book.new entries.new) given.new out.new }
{
    match tape::events::event(bytes, from, given) {
        Ok(Some((e, end))) => {
            let printed = event(s, e, given, book, entries, out, at);
            Reached {
                at: printed,
                from: end,
                ending: None,
            }
        }
        Ok(None) => Reached {
            at: end_line(out, at),
            from,
            ending: Some(Ending::Ended),
        },
        Err(r) => Reached {
            at: tape_line(out, at, r.why.number(), base + r.place as u64),
            from,
            ending: Some(Ending::Refused),
        },
    }
}
