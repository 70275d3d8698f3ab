// The tape's writer: one event, given as its numbers, put into lent memory.
#![tactic(auto)]

pub mod rewriting;

ghost use Rattle.std.specs.Prelude.{◌≡◌, ◌≤◌, ltb, length};
ghost use Rattle.tape.specs.Tape.{stored};
ghost use Rattle.tape.specs.Leads.{encode_all};
ghost use Rattle.writer.specs.Refusal.{refusal_number};
ghost use Rattle.writer.specs.Write.{Told, written_of, buffer_after};

use numeral::writing::length;
use tape::one::one_event;

// Why an event is not written: its exact length exceeds the room; the numbers are not exactly one event that the reader
// takes.
#[derive(Clone, Copy, PartialEq, Eq)]
pub enum Refusal {
    NoRoom,
    NotOneEvent,
}

impl Refusal {
    // The number that a writer is told: 40 or 41.
    pub fn number(self) -> u32
        ensures { result ≡ refusal_number self }
    {
        match self {
            Refusal::NoRoom => 40,
            Refusal::NotOneEvent => 41,
        }
    }
}

// Whether the bytes of all the numbers are more than there is room for.
fn exceeds(numbers: &[u32], room: usize) -> bool
    ensures { result ≡ ltb room (length (encode_all numbers.now)) }
{
    let mut left = room;
    for &v in numbers {
        let bytes = length(v);
        if left < bytes {
            return true;
        }
        left -= bytes;
    }
    false
}

// Lays the numbers out from the front, one after the other, and answers how many bytes they take.
fn lay(numbers: &[u32], buffer: &mut [u8]) -> usize
    requires { length (encode_all numbers.now) ≤ length buffer.old }
    ensures bytes { buffer.new ≡ stored (encode_all numbers.now) buffer.old }
    ensures count { result ≡ length (encode_all numbers.now) }
{
    let mut at = 0;
    for &v in numbers {
        at += numeral::writing::write(v, buffer, at);
    }
    at
}

// Writes one event, given as its numbers in the tape's order, from the front of the lent memory, and answers the bytes
// used. Refused, first that applies, with every byte left as found: numbers that are not exactly one event that the
// reader takes, an event whose exact length exceeds the room. Past the bytes used the memory stays as found, too.
#[tactic(auto, unfolding(crate::specs::Write::write_refusal, crate::specs::Write::written_of, crate::specs::Write::used_bytes, crate::specs::Write::buffer_after, crate::specs::Refusal::refusal_of, units::specs::Tests::pick, units::specs::Tests::is_not))]
pub fn write(numbers: &[u32], buffer: &mut [u8]) -> Result<usize, Refusal>
    ensures answer { result ≡ written_of numbers.now (length buffer.old) }
    ensures values { Told numbers.now (length buffer.old) result }
    ensures bytes { buffer.new ≡ buffer_after numbers.now buffer.old }
{
    if !one_event(numbers) {
        return Err(Refusal::NotOneEvent);
    }
    if exceeds(numbers, buffer.len()) {
        return Err(Refusal::NoRoom);
    }
    Ok(lay(numbers, buffer))
}
