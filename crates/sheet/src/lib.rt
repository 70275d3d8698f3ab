// An order sheet, as a desk keeps it: text lines, one order each. A sheet is read in parts of any length, and what it
// says does not depend on how it is cut. This crate knows no market: it gives orders, each as the submit of one entry
// that it means.
#![tactic(auto)]

ghost use Rattle.std.specs.Prelude.{◌≡◌, ◌+◌, ◌≤◌, ◌<◌, length, take, drop};
ghost use Rattle.sheet.specs.Line.{refusal_number, line_of};
ghost use Rattle.sheet.specs.Reading.{lines, line_start, line_step, stepped_of, finished_of, begun_of, step_of, held_after, finish_of, CanStep};

use entry::Entry;
use line::read_line;

mod bytes;
mod line;

// The most bytes of a line before its newline.
pub const LINE_MOST: usize = 64;

const NEWLINE: u8 = b'\n';

// Why a sheet is refused: over 64 bytes without a newline; a wrong or missing word; a wrong or missing number, price or
// dash; or a last line without its newline.
#[derive(Clone, Copy, PartialEq, Eq)]
pub enum Refusal {
    TooLong,
    WrongWord,
    WrongNumber,
    Unended,
}

impl Refusal {
    // The number that is told: 42, 43, 44 or 45.
    pub fn number(self) -> u32
        ensures { result ≡ refusal_number self }
    {
        match self {
            Refusal::TooLong => 42,
            Refusal::WrongWord => 43,
            Refusal::WrongNumber => 44,
            Refusal::Unended => 45,
        }
    }
}

// Why a sheet is refused, and at which line.
#[derive(Clone, Copy, PartialEq, Eq)]
pub struct Refused {
    pub why: Refusal,
    pub line: u64,
}

// An order: its tenant, and the entry that its submit sends.
#[derive(Clone, Copy)]
pub struct Order {
    pub tenant: u32,
    pub entry: Entry,
}

// Where a sheet is read: the line, from 1, and how many of its bytes have come. These stand in front of the memory that
// is lent from step to step.
#[derive(Clone, Copy)]
pub struct Place {
    pub line: u64,
    pub held: usize,
}

impl Place {
    // The start of a sheet.
    pub fn new() -> Place
        ensures { result ≡ line_start 1 }
    {
        Place { line: 1, held: 0 }
    }
}

// What a step gives: the place where the next part goes on, all bytes of this one being used; or an order, with the
// place of the next byte in the part and that in the sheet.
#[derive(Clone, Copy)]
pub enum Given {
    More(Place),
    Order(Order, usize, Place),
}

// Reads the line whose bytes stand in front of the memory lent. A newline has ended it, and the next byte stands at a
// place.
fn end_line(held: &[u8], count: usize, line: u64, end: usize) -> Result<Given, Refused>
    requires count_in_bounds { count ≤ length held.now }
    requires line_bound { line + 1 < lines }
    ensures { stepped_of result ≡ line_step (line_of (take count held.now)) line end }
{
    match read_line(&held[..count]) {
        Ok(order) => Ok(Given::Order(
            order,
            end,
            Place {
                line: line + 1,
                held: 0,
            },
        )),
        Err(why) => Err(Refused { why, line }),
    }
}

// Reads a part of a sheet from a place on, up to the end of the line at hand: an order where a newline ends it, a
// refusal, or the end of the part. The bytes of a line that have come are kept in the memory lent.
pub fn step(part: &[u8], from: usize, place: Place, held: &mut [u8]) -> Result<Given, Refused>
    requires { CanStep place held.old }
    ensures answer { stepped_of result ≡ step_of place.line (begun_of place held.old) (drop from part.now) from }
    ensures kept { held.new ≡ held_after place held.old (drop from part.now) }
{
    let line = place.line;
    let mut count = place.held;
    for i in from..part.len() {
        let b = part[i];
        if b == NEWLINE {
            return end_line(held, count, line, i + 1);
        }
        if count == LINE_MOST {
            let why = Refusal::TooLong;
            return Err(Refused { why, line });
        }
        held[count] = b;
        count += 1;
    }
    Ok(Given::More(Place { line, held: count }))
}

// Whether a sheet ends well where no part is left.
pub fn finish(place: Place) -> Result<(), Refused>
    ensures { finished_of result ≡ finish_of place }
{
    if place.held == 0 {
        Ok(())
    } else {
        Err(Refused {
            why: Refusal::Unended,
            line: place.line,
        })
    }
}
