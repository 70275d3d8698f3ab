// The program: reads a tape and writes every event that is read again, so a tape that ends comes out as itself, and a
// refused one as its events before the refused one.
//
// The tape comes from the file that the first argument names, or from standard input, through a window of 64 KiB, and
// goes to standard output through one of the same size. How it ended is told by one byte: `0` the tape ended, `1` it was
// refused, `2` a file could not be opened, read or written.
#![tactic(auto)]

ghost use Rattle.std.specs.Prelude.{◌≤◌, length};
ghost use Rattle.rewrite.specs.Rewriting.{StepsTo};

use tape::MOST_BYTES;
use window::program::{Status, TURNS, flush, opened, tell};
use window::{WINDOW, is_short, refill};
use writer::rewriting::rewrite;

// What one event leaves: the place after it among the bytes at hand, the bytes that stand in the output, and how the
// program goes on.
#[derive(Clone, Copy)]
struct Stepped {
    from: usize,
    at: usize,
    status: Status,
}

// Rewrites the event at a place of the bytes at hand behind the bytes that stand in the output.
fn step(bytes: &[u8], from: usize, out: &mut [u8], at: usize) -> Stepped
    requires from_in_bounds { from ≤ length bytes.now }
    requires at_in_bounds { at ≤ length out.old }
    ensures { StepsTo bytes.now from out.old at result out.new }
{
    let status = match rewrite(bytes, from, &mut out[at..]) {
        Ok(Some(rewritten)) => match rewritten.written {
            Ok(used) => {
                return Stepped {
                    from: rewritten.end,
                    at: at + used,
                    status: Status::Going,
                };
            }
            Err(_) => Status::Failed,
        },
        Ok(None) => Status::Ended,
        Err(_) => Status::Refused,
    };
    Stepped { from, at, status }
}

fn main(rt: HostRuntime) {
    let Some(mut source) = opened(&rt, 1, b"tape") else {
        tell(Status::Failed);
        return;
    };
    let mut window = [0u8; WINDOW];
    let mut out = [0u8; WINDOW];
    let mut at: usize = 0;
    let mut from: usize = 0;
    let mut to: usize = 0;
    let mut more = true;
    let mut status = Status::Going;
    let mut turns = TURNS;
    while turns > 0 && status == Status::Going {
        turns -= 1;
        if is_short(from, to, more, MOST_BYTES) {
            match refill(&mut source, &mut window, from, to, 0) {
                Ok(filled) => {
                    from = 0;
                    to = filled.to;
                    more = filled.more;
                }
                Err(_) => status = Status::Failed,
            }
        } else if out.len() - at < MOST_BYTES {
            status = flush(&rt, &out, at);
            at = 0;
        } else {
            let done = step(&window[..to], from, &mut out, at);
            from = done.from;
            at = done.at;
            status = done.status;
        }
    }
    if flush(&rt, &out, at) == Status::Going && status != Status::Failed {
        tell(status);
    } else {
        tell(Status::Failed);
    }
}
