// Whether numbers are exactly one event, as a writer asks of them.
ghost use Rattle.std.specs.Prelude.{◌≡◌, drop};
ghost use Rattle.tape.specs.Tape.{submit, event};
ghost use Rattle.tape.specs.One.{one_event};

use crate::events::{AWAY, AWAY_NUMBERS, OPEN, SETTINGS, SETTINGS_NUMBERS, SUBMIT, TURN, in_bulk};
use entry::ENTRY_NUMBERS;

// Behind the event number of a submit stand a tenant, a count of 1 to 20 and the numbers of so many entries.
fn one_submit(numbers: &[u32]) -> bool
    ensures { result ≡ one_event submit (drop 1 numbers.now) }
{
    if numbers.len() < 3 {
        return false;
    }
    let count = numbers[2];
    in_bulk(count) && numbers.len() == 3 + ENTRY_NUMBERS * count as usize
}

// Whether the numbers, the event number first, are those of one event that the reader takes, and no more.
pub fn one_event(numbers: &[u32]) -> bool
    ensures { result ≡ one_event event numbers.now }
{
    if numbers.is_empty() {
        return false;
    }
    let kind = numbers[0];
    match kind {
        SETTINGS => numbers.len() == 1 + SETTINGS_NUMBERS,
        AWAY => numbers.len() == 1 + AWAY_NUMBERS,
        SUBMIT => one_submit(numbers),
        TURN => numbers.len() == 1,
        OPEN => numbers.len() == 1,
        _ => false,
    }
}
