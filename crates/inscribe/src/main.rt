// The program: reads a tape in figures and writes its bytes.
//
// The text comes from the file that the first argument names, or from standard input. It is read through a window of
// 64 KiB and written through an output of the same size, so a text of any length takes the same memory. A line that is
// refused is told on standard error, `write C L`, and the events before it are written. How it ended is told by one byte:
// `0` the text ended, `1` a line was refused, `2` a file could not be opened, read or written.
#![tactic(auto)]

use figures::{Next, Place, inscribe};
use tape::MOST_NUMBERS;
use window::program::{Status, TURNS, flush, opened, status_of, tell, tell_line};
use window::{WINDOW, refill};
use writer::Refusal;

// Tells the refused line, where there is one.
fn tell_refused(rt: &HostRuntime, told: Result<(), Refusal>, line: u64) {
    if let Err(why) = told {
        tell_line(rt, b"write ", why.number(), line);
    }
}

fn main(rt: HostRuntime) {
    let Some(mut source) = opened(&rt, 1, b"text") else {
        tell(Status::Failed);
        return;
    };
    let mut place = Place::new();
    let mut numbers = [0u32; MOST_NUMBERS];
    let mut window = [0u8; WINDOW];
    let mut out = [0u8; WINDOW];
    let mut at: usize = 0;
    let mut from: usize = 0;
    let mut to: usize = 0;
    let mut more = true;
    let mut told = Ok(());
    let mut status = Status::Going;
    let mut turns = TURNS;
    while turns > 0 && status == Status::Going {
        turns -= 1;
        let done = inscribe(&window[..to], more, from, place, &mut numbers, &mut out, at);
        place = done.place;
        at = done.at;
        from = done.from;
        match done.next {
            Next::Read => match refill(&mut source, &mut window, from, to, 0) {
                Ok(filled) => {
                    from = 0;
                    to = filled.to;
                    more = filled.more;
                }
                Err(_) => status = Status::Failed,
            },
            Next::Write => {
                status = flush(&rt, &out, at);
                at = 0;
            }
            Next::Stop(how) => {
                told = how;
                status = status_of(told.is_ok());
            }
        }
    }
    if flush(&rt, &out, at) == Status::Going && status != Status::Failed {
        tell_refused(&rt, told, place.line);
        tell(status);
    } else {
        tell(Status::Failed);
    }
}
