// One byte of a text: a digit of a number, the space behind a number, or the newline behind a line.
ghost use Rattle.std.specs.Prelude.{◌≡◌, ◌-◌, ◌≤◌, length};
ghost use Rattle.figures.specs.Reading.{moved_of, misplaced, digit_of, end_of, numbers_after, reader_of, writing, line_end, byte_of};
ghost use Rattle.figures.specs.Inscribing.{Keeps, CanTake, TakesTo};

use crate::Place;
use writer::{Refusal, write};

const SPACE: u8 = b' ';

const NEWLINE: u8 = b'\n';

// The place after a byte, the place after what is written, and whether the byte's line is refused.
#[derive(Clone, Copy)]
pub(crate) struct Taken {
    pub place: Place,
    pub at: usize,
    pub told: Result<(), Refusal>,
}

// Whether a byte is no digit, or stands behind a 0 in front.
fn misplaced(b: u8, place: Place) -> bool
    ensures { result ≡ misplaced b place }
{
    !b.is_ascii_digit() || place.begun && place.value == 0
}

// A digit goes on with a number, or begins one, and a number is at most 4,294,967,295; none where it cannot.
fn digit(b: u8, place: Place) -> Option<Place>
    ensures { moved_of place result ≡ digit_of b place }
{
    if misplaced(b, place) {
        return None;
    }
    let tens = place.value.checked_mul(10)?;
    let value = tens.checked_add(u32::from(b - b'0'))?;
    Some(Place {
        begun: true,
        value,
        ..place
    })
}

// The end of a number, which joins those of its line in lent memory, if it has begun and there is room.
fn end_number(place: Place, numbers: &mut [u32]) -> Option<Place>
    ensures answer { moved_of place result ≡ end_of place (length numbers.old) }
    ensures kept { numbers.new ≡ numbers_after place numbers.old }
{
    let count = place.count;
    if place.begun && count < numbers.len() {
        numbers[count] = place.value;
        Some(Place {
            count: count + 1,
            begun: false,
            value: 0,
            ..place
        })
    } else {
        None
    }
}

// A byte that writes nothing leaves the output as it is. The line goes on, or is refused where it stands as numbers are
// that are not one event.
fn silent(place: Place, next: Option<Place>, at: usize) -> Taken
    ensures { Keeps (moved_of place next) at result }
{
    match next {
        Some(place) => Taken {
            place,
            at,
            told: Ok(()),
        },
        None => Taken {
            place,
            at,
            told: Err(Refusal::NotOneEvent),
        },
    }
}

// The numbers of a line, all ended, are written as an event.
fn write_event(place: Place, numbers: &[u32], out: &mut [u8], at: usize) -> Taken
    requires can_take { CanTake place out.old at }
    requires count_in_bounds { place.count ≤ length numbers.now }
    ensures { TakesTo (writing (length out.old - at) (reader_of place numbers.now))
        out.old at result numbers.now out.new }
{
    let count = place.count;
    let written = write(&numbers[..count], &mut out[at..]);
    match written {
        Ok(n) => Taken {
            place: Place {
                line: place.line + 1,
                count: 0,
                begun: false,
                value: 0,
            },
            at: at + n,
            told: Ok(()),
        },
        Err(why) => Taken {
            place,
            at,
            told: Err(why),
        },
    }
}

// The end of a line: its last number ends, and its numbers are written.
fn end_line(place: Place, numbers: &mut [u32], out: &mut [u8], at: usize) -> Taken
    requires { CanTake place out.old at }
    ensures { TakesTo (line_end (length out.old - at) (reader_of place numbers.old))
        out.old at result numbers.new out.new }
{
    let Some(ended) = end_number(place, numbers) else {
        return silent(place, None, at);
    };
    write_event(ended, numbers, out, at)
}

// What a byte leaves.
pub(crate) fn take(b: u8, place: Place, numbers: &mut [u32], out: &mut [u8], at: usize) -> Taken
    requires { CanTake place out.old at }
    ensures { TakesTo (byte_of b (length out.old - at) (reader_of place numbers.old))
        out.old at result numbers.new out.new }
{
    if b == NEWLINE {
        return end_line(place, numbers, out, at);
    }
    if b == SPACE {
        return silent(place, end_number(place, numbers), at);
    }
    silent(place, digit(b, place), at)
}
