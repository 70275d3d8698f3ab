// One event out of the bytes at a place.
ghost use Rattle.std.specs.Prelude.{◌≡◌, ◌∷◌, ℕ, drop};
ghost use Rattle.entry.specs.Numbers.{bulk, from1to};
ghost use Rattle.tape.specs.Tape.{settings_of, settings, away, submit, form_of, reading, numbers_at, entries_of, stored, event_at, entries_after};

use crate::several::{read_several, refused};
use crate::{Event, Refusal, Refused};
use entry::{Away, BULK, ENTRY_NUMBERS, Settings};
use units::Cents;

// The event numbers.
pub(crate) const SETTINGS: u32 = 1;

pub(crate) const AWAY: u32 = 2;

pub const SUBMIT: u32 = 3;

pub(crate) const TURN: u32 = 4;

pub(crate) const OPEN: u32 = 5;

// The numbers of the settings.
pub(crate) const SETTINGS_NUMBERS: usize = 11;

// The numbers of an away quote.
pub(crate) const AWAY_NUMBERS: usize = 2;

// Whether a bulk may have so many entries.
pub(crate) fn in_bulk(count: u32) -> bool
    ensures { result ≡ from1to bulk count }
{
    1 <= count && count <= BULK
}

// The settings come in this order.
fn settings_of(v: [u32; SETTINGS_NUMBERS]) -> Settings
    ensures { result ≡ settings_of v }
{
    Settings {
        allocation: v[0],
        grid: v[1],
        option: v[2],
        strike: Cents(v[3]),
        drill: Cents(v[4]),
        far: Cents(v[5]),
        percent: v[6],
        least: Cents(v[7]),
        greatest: Cents(v[8]),
        print: Cents(v[9]),
        close: Cents(v[10]),
    }
}

fn settings(s: &[u8], at: usize) -> Result<Option<(Event, usize)>, Refused>
    ensures { (last : ℕ) → result ≡ reading settings s.now last at }
{
    let mut values = [0u32; SETTINGS_NUMBERS];
    let end = read_several(s, at, SETTINGS_NUMBERS, &mut values)?;
    Ok(Some((Event::Settings(settings_of(values)), end)))
}

fn away(s: &[u8], at: usize) -> Result<Option<(Event, usize)>, Refused>
    ensures { (last : ℕ) → result ≡ reading away s.now last at }
{
    let mut two = [0u32; AWAY_NUMBERS];
    let end = read_several(s, at, AWAY_NUMBERS, &mut two)?;
    let quote = Away {
        bid: Cents(two[0]),
        offer: Cents(two[1]),
    };
    Ok(Some((Event::Away(quote), end)))
}

// The count is asked as soon as it is read; then the entries' numbers go into the lent memory.
fn submit(s: &[u8], at: usize, numbers: &mut [u32]) -> Result<Option<(Event, usize)>, Refused>
    ensures answer { (last : ℕ) → result ≡ reading submit s.now last at }
    ensures entries { numbers.new ≡ stored (drop 2 (numbers_at submit s.now at)) numbers.old }
{
    let named = numeral::read(s, at);
    let Ok((tenant, next)) = named else {
        return Err(refused(named, at));
    };
    let counted = numeral::read(s, next);
    let Ok((count, from)) = counted else {
        return Err(refused(counted, next));
    };
    if !in_bulk(count) {
        return Err(Refused {
            why: Refusal::NoSuchCount,
            place: next,
        });
    }
    let end = read_several(s, from, ENTRY_NUMBERS * count as usize, numbers)?;
    Ok(Some((Event::Submit(tenant, count), end)))
}

// The event of a kind, its number at one place and the rest of it at the next.
fn of_kind(
    kind: u32,
    s: &[u8],
    at: usize,
    next: usize,
    numbers: &mut [u32],
) -> Result<Option<(Event, usize)>, Refused>
    ensures answer { result ≡ reading (form_of kind) s.now at next }
    ensures entries { numbers.new ≡ stored (entries_of (kind ∷ numbers_at (form_of kind) s.now next)) numbers.old }
{
    match kind {
        SETTINGS => settings(s, next),
        AWAY => away(s, next),
        SUBMIT => submit(s, next, numbers),
        TURN => Ok(Some((Event::Turn, next))),
        OPEN => Ok(Some((Event::Open, next))),
        _ => Err(Refused {
            why: Refusal::NoSuchEvent,
            place: at,
        }),
    }
}

// The event at a place of a tape with the place after its last number, or the refusal of the number that is bad; none
// where the tape ends between two events. The numbers of a bulk's entries are stored from the front of the lent memory,
// as far as it reaches.
pub fn event(s: &[u8], at: usize, numbers: &mut [u32]) -> Result<Option<(Event, usize)>, Refused>
    ensures answer { result ≡ event_at s.now at }
    ensures entries { numbers.new ≡ entries_after s.now at numbers.old }
{
    if s.len() <= at {
        return Ok(None);
    }
    let told = numeral::read(s, at);
    let Ok((kind, next)) = told else {
        return Err(refused(told, at));
    };
    of_kind(kind, s, at, next, numbers)
}
