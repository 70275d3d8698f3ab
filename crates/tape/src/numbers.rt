// The numbers of an event that was read, as a program wants them that writes it again.
ghost use Rattle.std.specs.Prelude.{◌≡◌, [], length};
ghost use Rattle.std.proofs.lemmas.List.Edits.{sets};
ghost use Rattle.tape.specs.Tape.{stored};
ghost use Rattle.tape.specs.Spelling.{numbers_of, entries_in};

use crate::Event;
use crate::events::{AWAY, OPEN, SETTINGS, SUBMIT, TURN};
use entry::{ENTRY_NUMBERS, Settings};

// Stores numbers from a place on, as far as the memory reaches.
fn store(numbers: &[u32], out: &mut [u32], at: usize)
    ensures { out.new ≡ sets out.old at numbers.now }
{
    let mut to = at;
    for &v in numbers {
        if out.len() <= to {
            return;
        }
        out[to] = v;
        to += 1;
    }
}

// The numbers of settings, the event number first.
fn of_settings(x: Settings, out: &mut [u32]) -> usize
    ensures numbers { out.new ≡ stored (numbers_of (Event.Settings x) []) out.old }
    ensures count { result ≡ length (numbers_of (Event.Settings x) []) }
{
    let all = [
        SETTINGS,
        x.allocation,
        x.grid,
        x.option,
        x.strike.0,
        x.drill.0,
        x.far.0,
        x.percent,
        x.least.0,
        x.greatest.0,
        x.print.0,
        x.close.0,
    ];
    store(&all, out, 0);
    all.len()
}

// The numbers of an event, the event number first, stored from the front of the lent memory as far as it reaches;
// answers how many there are. Those of a bulk's entries are lent beside it.
pub fn numbers_of(e: Event, entries: &[u32], out: &mut [u32]) -> usize
    ensures numbers { out.new ≡ stored (numbers_of e entries.now) out.old }
    ensures count { result ≡ length (numbers_of e entries.now) }
{
    match e {
        Event::Settings(x) => of_settings(x, out),
        Event::Away(quote) => {
            let all = [AWAY, quote.bid.0, quote.offer.0];
            store(&all, out, 0);
            all.len()
        }
        Event::Submit(tenant, count) => {
            let first = [SUBMIT, tenant, count];
            store(&first, out, 0);
            store(entries, out, first.len());
            first.len() + entries.len()
        }
        Event::Turn => {
            store(&[TURN], out, 0);
            1
        }
        Event::Open => {
            store(&[OPEN], out, 0);
            1
        }
    }
}

// How many numbers of entries an event has.
pub fn entries_in(e: Event) -> usize
    ensures { result ≡ entries_in e }
{
    match e {
        Event::Submit(_, count) => ENTRY_NUMBERS * count as usize,
        _ => 0,
    }
}
