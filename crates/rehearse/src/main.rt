// The program: replays a tape and prints what the market answers.
//
// The tape comes from the file that the first argument names, or from standard input. `--tallies` before the name asks
// for the tallies, which are printed after every other line. The tape is read through a window of 64 KiB and printed
// through an output of the same size, so a tape of any length takes the same memory. How the replay ended is told by one
// byte: `0` the tape ended, `1` it was refused, `2` a file could not be opened, read or written.
#![tactic(auto)]

ghost use Rattle.std.specs.Prelude.{◌≡◌, length, Some};
ghost use Rattle.lines.specs.Laying.{output};
ghost use Rattle.replay.specs.Stepping.{status_of};
ghost use Rattle.window.specs.Program.{status_byte};

use book::Book;
use entry::BULK_NUMBERS;
use lanes::ALL_ENTRIES;
use lines::Output;
use playing::{Next, play};
use replay::stepping::Ending;
use replay::tallying::tally_lines;
use session::Session;
use std::rt::Env;
use window::program::{NAME_MOST, Source, Status, TURNS, flush, opened, tell};
use window::{WINDOW, refill};

// Whether the first argument asks for the tallies.
fn tallies_asked(rt: &HostRuntime) -> bool {
    let mut first = [0u8; NAME_MOST];
    match rt.arg(1, &mut first) {
        Ok(length) => &first[..length] == b"--tallies".as_slice(),
        Err(_) => false,
    }
}

// Prints the tallies where they are asked for. The lines before them are written out, so they have the whole output.
fn print_tallies(rt: &HostRuntime, s: &Session, out: &mut Output) -> Status
    requires { length out.old ≡ output }
{
    if tallies_asked(rt) {
        let end = tally_lines(s, out, 0);
        flush(rt, out, end)
    } else {
        Status::Going
    }
}

// How the program stands once the tape has ended.
fn status_at(how: Ending) -> Status
    ensures { status_byte result ≡ status_of (Some how) }
{
    match how {
        Ending::Ended => Status::Ended,
        Ending::Refused => Status::Refused,
    }
}

// The tape's file, or none where it cannot be opened.
fn tape_file(rt: &HostRuntime) -> Option<Source> {
    let named = if tallies_asked(rt) { 2 } else { 1 };
    opened(rt, named, b"tape")
}

fn main(rt: HostRuntime) {
    let Some(mut source) = tape_file(&rt) else {
        tell(Status::Failed);
        return;
    };
    let mut s = Session::new();
    let mut book = Book::new();
    let mut entries = [0; ALL_ENTRIES];
    let mut given = [0; BULK_NUMBERS];
    let mut window = [0; WINDOW];
    let mut out = [0; WINDOW];
    let mut at = 0;
    let mut from = 0;
    let mut to = 0;
    let mut base = 0;
    let mut more = true;
    let mut status = Status::Going;
    let mut turns = TURNS;
    while turns > 0 && status == Status::Going {
        turns -= 1;
        let done = play(
            &mut s,
            &window[..to],
            more,
            base,
            from,
            &mut given,
            &mut book,
            &mut entries,
            &mut out,
            at,
        );
        at = done.at;
        from = done.from;
        match done.next {
            Next::Read => match refill(&mut source, &mut window, from, to, base) {
                Ok(filled) => {
                    base = filled.base;
                    from = 0;
                    to = filled.to;
                    more = filled.more;
                }
                Err(_) => status = Status::Failed,
            },
            Next::Write => {
                status = flush(&rt, &out, at);
                at = 0;
            }
            Next::Stop(how) => status = status_at(how),
        }
    }
    if flush(&rt, &out, at) == Status::Going
        && status != Status::Failed
        && print_tallies(&rt, &s, &mut out) == Status::Going
    {
        tell(status);
    } else {
        tell(Status::Failed);
    }
}
