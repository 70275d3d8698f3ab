// The program: reads an order sheet and writes its submits as a tape.
//
// The sheet comes from the file that the first argument names, or from standard input. It is read through a window of
// 64 KiB and written through an output of the same size, so a sheet of any length takes the same memory. A refused
// sheet is told on standard error, `sheet C L`, and the submits before that line are written. How it ended is told by
// one byte: `0` the sheet ended, `1` it was refused, `2` a file could not be opened, read or written.
#![tactic(auto)]

ghost use Rattle.std.specs.Prelude.{◌+◌, ◌≤◌, length};
ghost use Rattle.tape.specs.Leads.{encode_all};
ghost use Rattle.tape.specs.Depth.{most_bytes};
ghost use Rattle.window.specs.Refusal.{Lays};
ghost use Rattle.sheet.specs.Submits.{submit_of};
ghost use Rattle.submits.specs.Sending.{CanSend, SendsLine, CanSendAll, SendsAll};

use sheet::{Given, LINE_MOST, Order, Place, Refused, finish, step};
use tape::MOST_BYTES;
use tape::events::SUBMIT;
use window::program::{Status, TURNS, flush, opened, status_of, tell, tell_line};
use window::{WINDOW, refill};
use writer::write;

// How far sending has come: the place in the sheet, that of the next byte at hand, the place after what is written, and
// whether the sheet is refused there.
#[derive(Clone, Copy)]
struct Sent {
    place: Place,
    from: usize,
    at: usize,
    told: Result<(), Refused>,
}

// Writes the submit of an order behind the bytes that stand in the output, and answers the place after it.
fn put(order: Order, out: &mut [u8], at: usize) -> usize
    requires { at + most_bytes ≤ length out.old }
    ensures { Lays out.old at (encode_all (submit_of order)) result out.new }
{
    let e = order.entry;
    let numbers = [
        SUBMIT,
        order.tenant,
        1,
        e.kind,
        e.side,
        e.life,
        e.price.0,
        e.size.0,
        e.number,
    ];
    let used = write(&numbers, &mut out[at..]).unwrap();
    at + used
}

// One step over the bytes at hand: where it gives an order, its submit is written.
fn send_line(
    bytes: &[u8],
    from: usize,
    place: Place,
    held: &mut [u8],
    out: &mut [u8],
    at: usize,
) -> Sent
    requires { CanSend bytes.now from place held.old out.old at }
    ensures { SendsLine bytes.now from place held.old out.old at result held.new out.new }
{
    match step(bytes, from, place, held) {
        Ok(Given::More(next)) => Sent {
            place: next,
            from: bytes.len(),
            at,
            told: Ok(()),
        },
        Ok(Given::Order(order, end, next)) => Sent {
            place: next,
            from: end,
            at: put(order, out, at),
            told: Ok(()),
        },
        Err(refused) => Sent {
            place,
            from,
            at,
            told: Err(refused),
        },
    }
}

// Sends the bytes at hand from a place on, until they are used up, or the output has no room for the longest event, or
// the sheet is refused.
fn send(bytes: &[u8], from: usize, place: Place, held: &mut [u8], out: &mut [u8], at: usize) -> Sent
    requires { CanSendAll bytes.now from place held.old out.old at }
    ensures { SendsAll bytes.now from place held.old out.old at result held.new out.new }
{
    let mut sent = Sent {
        place,
        from,
        at,
        told: Ok(()),
    };
    while sent.from < bytes.len() {
        if out.len() - sent.at < MOST_BYTES {
            return sent;
        }
        sent = send_line(bytes, sent.from, sent.place, held, out, sent.at);
        if sent.told.is_err() {
            return sent;
        }
    }
    sent
}

// Tells the refused line, where there is one.
fn tell_refused(rt: &HostRuntime, told: Result<(), Refused>) {
    if let Err(refused) = told {
        tell_line(rt, b"sheet ", refused.why.number(), refused.line);
    }
}

fn main(rt: HostRuntime) {
    let Some(mut source) = opened(&rt, 1, b"sheet") else {
        tell(Status::Failed);
        return;
    };
    let mut place = Place::new();
    let mut held = [0u8; LINE_MOST];
    let mut window = [0u8; WINDOW];
    let mut out = [0u8; WINDOW];
    let mut at: usize = 0;
    let mut from: usize = 0;
    let mut to: usize = 0;
    let mut more = true;
    let mut told = Ok(());
    let mut status = Status::Going;
    let mut turns = TURNS;
    while turns > 0 && status == Status::Going {
        turns -= 1;
        let sent = send(&window[..to], from, place, &mut held, &mut out, at);
        place = sent.place;
        at = sent.at;
        from = sent.from;
        told = sent.told;
        if told.is_err() {
            status = Status::Refused;
        } else if out.len() - at < MOST_BYTES {
            status = flush(&rt, &out, at);
            at = 0;
        } else if more {
            match refill(&mut source, &mut window, from, to, 0) {
                Ok(filled) => {
                    from = 0;
                    to = filled.to;
                    more = filled.more;
                }
                Err(_) => status = Status::Failed,
            }
        } else {
            told = finish(place);
            status = status_of(told.is_ok());
        }
    }
    if flush(&rt, &out, at) == Status::Going && status != Status::Failed {
        tell_refused(&rt, told);
        tell(status);
    } else {
        tell(Status::Failed);
    }
}
