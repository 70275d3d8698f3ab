// The ends of a program: the file that it reads, what it writes out, and how it tells that it has ended. It writes one
// byte to file descriptor 3, which the command above makes its status.
ghost use Rattle.std.specs.Prelude.{◌≡◌, ◌≤◌, length};
ghost use Rattle.window.specs.Program.{Stopped, status_byte, status_after, status_of, word_most};

use crate::refusal::{LONGEST_BEHIND, refusal_line};
use crate::writing::write_out;
use std::env::FillError;
use std::fs::File;
use std::io::{Error, ErrorKind, Read, Write};
use std::rt::{Env, Stdin, Stdout};

// Where the status goes.
const STATUS_FILENO: i32 = 3;

// How a program stands: it goes on; all that was to be done is done; what was read is refused; or a file could not be
// opened, a read or a write failed.
#[derive(Clone, Copy, PartialEq, Eq)]
pub enum Status {
    Going,
    Ended,
    Refused,
    Failed,
}

impl Status {
    // The byte that tells it.
    pub fn byte(self) -> u8
        ensures { result ≡ status_byte self }
    {
        match self {
            Status::Going => 0,
            Status::Ended => b'0',
            Status::Refused => b'1',
            Status::Failed => b'2',
        }
    }
}

// The reader of standard output has left, which is no failure to speak of; it is told before the failed write is.
const LEFT: u8 = b'3';

// More turns of a program's loop than any run takes: each works on what is at hand, then reads or writes once.
pub const TURNS: u64 = 140737488355328;

// How many writes of the status a signal may interrupt before it is given up.
const TELLS: u32 = 64;

// The bytes that an argument may have, and one behind them.
pub const NAME_MOST: usize = 4096;

// The numbers of the errors of a name that is too long, and of one that is no text.
const TOO_LONG: i32 = 36;

const NO_TEXT: i32 = 84;

// What a program reads: standard input or an open file.
#[derive(Drop)]
pub enum Source {
    Input(Stdin),
    Opened(File),
}

impl Read for Source {
    fn read(&mut self, buf: &mut [u8]) -> std::io::Result<usize> {
        match self {
            Source::Input(input) => input.read(buf),
            Source::Opened(file) => file.read(buf),
        }
    }
}

// Standard output, and whether a write found that its reader has left.
#[derive(Drop)]
struct Shown {
    output: Stdout,
    left: bool,
}

impl Write for Shown {
    fn write(&mut self, buf: &[u8]) -> std::io::Result<usize> {
        let got = self.output.write(buf);
        if let Err(error) = &got
            && error.kind() == ErrorKind::BrokenPipe
        {
            self.left = true;
        }
        got
    }

    fn flush(&mut self) -> std::io::Result<()> {
        self.output.flush()
    }
}

// The most bytes of the word before a refused line, with the space behind it.
const WORD_MOST: usize = 6;

// Tells one byte. It is taken whole or not at all, so what was interrupted is tried again.
pub fn tell_byte(byte: u8) {
    for _ in 0..TELLS {
        if io::write_all(STATUS_FILENO, &[byte]) {
            return;
        }
    }
}

// Tells the status.
pub fn tell(status: Status) {
    tell_byte(status.byte());
}

// How the program stands after a read or a write.
pub fn status_after(failed: bool) -> Status
    ensures { status_byte result ≡ status_after failed }
{
    if failed {
        Status::Failed
    } else {
        Status::Going
    }
}

// How it stands where what it read has ended well or is refused.
pub fn status_of(well: bool) -> Status
    ensures { status_byte result ≡ status_of well }
{
    if well { Status::Ended } else { Status::Refused }
}

// Tells the refused line, where there is one, on standard error: a word with the space behind it comes first.
pub fn tell_line(rt: &HostRuntime, what: &[u8], code: u32, line: u64)
    requires { length what.now ≤ word_most }
{
    if code > 0 {
        let mut told = [0u8; WORD_MOST + LONGEST_BEHIND];
        let end = refusal_line(what, code, line, &mut told);
        let mut errors = rt.stderr();
        write_out(&mut errors, &told[..end]);
    }
}

// Writes out the first bytes of the output, up to a place, on standard output.
pub fn flush(rt: &HostRuntime, out: &[u8], at: usize) -> Status
    requires { at ≤ length out.now }
    ensures { Stopped (status_byte result) → ⊥ }
{
    let mut shown = Shown {
        output: rt.stdout(),
        left: false,
    };
    let done = write_out(&mut shown, &out[..at]);
    if shown.left {
        tell_byte(LEFT);
    }
    status_after(!done)
}

// The text of an error without the number that stands behind it.
fn reason(text: &str) -> &str {
    match text.split_once(" (os error ") {
        Some((front, _)) => front,
        None => text,
    }
}

// Tells on standard error what failed and why.
fn tell_failure(rt: &HostRuntime, what: &[u8], error: Error) {
    let mut errors = rt.stderr();
    write_out(&mut errors, what);
    write_out(&mut errors, b": ");
    if let Ok(text) = format!(in rt.alloc(); "{error}") {
        write_out(&mut errors, reason(text.as_str()).as_bytes());
    }
    write_out(&mut errors, b"\n");
}

// The file of a name, or none where it cannot be opened, which is told on standard error.
fn open_named(rt: &HostRuntime, name: &[u8]) -> Option<Source> {
    let file = match std::str::from_utf8(name) {
        Ok(path) => File::open(rt, path),
        Err(_) => Err(Error::from_raw_os_error(NO_TEXT)),
    };
    match file {
        Ok(file) => Some(Source::Opened(file)),
        Err(error) => {
            tell_failure(rt, name, error);
            None
        }
    }
}

// The file that an argument names, standard input where there is no such argument, or none where it cannot be opened,
// which is told on standard error; `what` stands there for an argument that is no name.
pub fn opened(rt: &HostRuntime, named: usize, what: &[u8]) -> Option<Source> {
    let mut path = [0u8; NAME_MOST];
    match rt.arg(named, &mut path) {
        Ok(length) => open_named(rt, &path[..length]),
        Err(FillError::NotPresent) => Some(Source::Input(rt.stdin())),
        Err(FillError::TooLong) => {
            tell_failure(rt, what, Error::from_raw_os_error(TOO_LONG));
            None
        }
    }
}
