// One event of a tape, read and written again.
ghost use Rattle.std.specs.Prelude.{◌≡◌, ◌≤◌, length};
ghost use Rattle.tape.specs.Depth.{most_numbers};
ghost use Rattle.tape.specs.Spelling.{numbers_of};
ghost use Rattle.writer.specs.Write.{written_of, buffer_after};
ghost use Rattle.writer.specs.Rewriting.{rewritten_of, rewritten_after};

use crate::{Refusal, write};
use entry::BULK_NUMBERS;
use tape::events::event;
use tape::numbers::{entries_in, numbers_of};
use tape::{Event, MOST_NUMBERS, Refused};

// What the writer answered to an event, with the place after it on the tape.
#[derive(Clone, Copy, PartialEq, Eq)]
pub struct Rewritten {
    pub written: Result<usize, Refusal>,
    pub end: usize,
}

// Writes an event that was read, with the numbers of its entries.
fn copy(e: Event, entries: &[u32], out: &mut [u8]) -> Result<usize, Refusal>
    requires { length (numbers_of e entries.now) ≤ most_numbers }
    ensures answer { result ≡ written_of (numbers_of e entries.now) (length out.old) }
    ensures bytes { out.new ≡ buffer_after (numbers_of e entries.now) out.old }
{
    let mut numbers = [0u32; MOST_NUMBERS];
    let n = numbers_of(e, entries, &mut numbers);
    write(&numbers[..n], out)
}

// Reads the event at a place of a tape, and writes it from the front of the lent memory; none where the tape ends.
pub fn rewrite(s: &[u8], at: usize, out: &mut [u8]) -> Result<Option<Rewritten>, Refused>
    ensures answer { result ≡ rewritten_of s.now at (length out.old) }
    ensures bytes { out.new ≡ rewritten_after s.now at out.old }
{
    let mut entries = [0u32; BULK_NUMBERS];
    let Some((e, end)) = event(s, at, &mut entries)? else {
        return Ok(None);
    };
    let given = entries_in(e);
    let written = copy(e, &entries[..given], out);
    Ok(Some(Rewritten { written, end }))
}
