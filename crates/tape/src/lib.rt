// The tape's events, one out of the bytes at a place: what happens, with its numbers and the place after it, or why it
// cannot be read.
#![tactic(auto)]

ghost use Rattle.std.specs.Prelude.{◌≡◌};
ghost use Rattle.tape.specs.Refusal.{refusal_number};

use entry::{Away, BULK_NUMBERS, Settings};
use numeral::GROUPS;

pub mod events;
pub mod numbers;
pub mod one;
mod several;

// The numbers of the longest event, a submit of the most entries: its event number, its tenant and its count, and those
// of its entries.
pub const MOST_NUMBERS: usize = 3 + BULK_NUMBERS;

// The bytes of the longest event.
pub const MOST_BYTES: usize = GROUPS as usize * MOST_NUMBERS;

// What a tape says: the five calls, each with its numbers. The numbers of a bulk's entries go into lent memory.
#[derive(Clone, Copy)]
pub enum Event {
    Settings(Settings),
    Away(Away),
    Submit(u32, u32),
    Turn,
    Open,
}

// Why an event cannot be read: there is no number, the event number is another, or a submit's count is not 1 to 20.
#[derive(Clone, Copy, PartialEq, Eq)]
pub enum Refusal {
    Number(numeral::Refusal),
    NoSuchEvent,
    NoSuchCount,
}

impl Refusal {
    // The number that a tape's reader is told: 30 to 34.
    pub fn number(self) -> u32
        ensures { result ≡ refusal_number self }
    {
        match self {
            Refusal::Number(why) => why.number(),
            Refusal::NoSuchEvent => 33,
            Refusal::NoSuchCount => 34,
        }
    }
}

// A refusal, with the place of the bad number's first byte.
#[derive(Clone, Copy, PartialEq, Eq)]
pub struct Refused {
    pub why: Refusal,
    pub place: usize,
}
