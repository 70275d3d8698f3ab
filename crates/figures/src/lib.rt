// A tape in figures: a text of one event a line, its numbers in decimal with one space between, is read byte by byte,
// and the bytes of its tape are written.
#![tactic(auto)]

mod reading;

ghost use Rattle.std.specs.Prelude.{◌≡◌, ◌-◌, length};
ghost use Rattle.figures.specs.Reading.{line_start, reader_of};
ghost use Rattle.figures.specs.Whole.{last_code};
ghost use Rattle.figures.specs.Inscribing.{code_of, next_of, used_up, leaving, inscribe_of, CanInscribe, InscribesTo};

use reading::take;
use tape::MOST_BYTES;
use writer::Refusal;

// Where a text is read: the line, from 1; how many of its numbers have ended; whether a number has begun, and its value
// so far.
#[derive(Clone, Copy)]
pub struct Place {
    pub line: u64,
    pub count: usize,
    pub begun: bool,
    pub value: u32,
}

impl Place {
    // The start of a text.
    pub fn new() -> Place
        ensures { result ≡ line_start 1 }
    {
        Place {
            line: 1,
            count: 0,
            begun: false,
            value: 0,
        }
    }
}

// What comes next: more of the text is read, what is written is written out, or nothing, since the text ended between
// two lines, or its line at the place is refused.
#[derive(Clone, Copy)]
pub enum Next {
    Read,
    Write,
    Stop(Result<(), Refusal>),
}

// What inscribing leaves: the place in the text, the place of the next byte at hand, the place after what is written,
// and what comes next.
#[derive(Clone, Copy)]
pub struct Inscribed {
    pub place: Place,
    pub from: usize,
    pub at: usize,
    pub next: Next,
}

fn leave(place: Place, from: usize, at: usize, next: Next) -> Inscribed
    ensures { result ≡ leaving place from at next }
{
    Inscribed {
        place,
        from,
        at,
        next,
    }
}

// How a text ends at a place: inside a line it is refused there.
fn ending(place: Place) -> Result<(), Refusal>
    ensures { code_of result ≡ last_code place }
{
    if place.begun || place.count > 0 {
        Err(Refusal::NotOneEvent)
    } else {
        Ok(())
    }
}

// What comes next where the bytes at hand are used up.
fn used_up(more: bool, place: Place) -> Next
    ensures { next_of result ≡ used_up more place }
{
    if more {
        Next::Read
    } else {
        Next::Stop(ending(place))
    }
}

// Reads the bytes of a text that are at hand, from the place `from` on, and writes the event of each line that they end
// into the output, behind the `at` bytes that stand there: until the bytes are used up, or the output has no room for
// the longest event, or a line is refused. The numbers of a line stand in lent memory, and a line of more numbers than
// it holds is refused.
pub fn inscribe(
    bytes: &[u8],
    more: bool,
    from: usize,
    place: Place,
    numbers: &mut [u32],
    out: &mut [u8],
    at: usize,
) -> Inscribed
    requires { CanInscribe bytes.now from place out.old at }
    ensures { InscribesTo
        (inscribe_of bytes.now more from (length out.old - at) (reader_of place numbers.old))
        out.old at result numbers.new out.new }
{
    let mut place = place;
    let mut at = at;
    for i in from..bytes.len() {
        if out.len() - at < MOST_BYTES {
            return leave(place, i, at, Next::Write);
        }
        let taken = take(bytes[i], place, numbers, out, at);
        place = taken.place;
        at = taken.at;
        if taken.told.is_err() {
            return leave(place, i, at, Next::Stop(taken.told));
        }
    }
    leave(place, bytes.len(), at, used_up(more, place))
}
