// A file read in parts: the window on a file is the bytes of it that are at hand. Those that are not used yet stand in
// it from one place to another; a read moves them to its front and puts more behind them.
//
// A signal may interrupt a read or a write before it moves a byte, which is no failure. A read that is interrupted
// gives nothing and says that the file may go on, so a loop over the file reads again; a write is tried again.
#![tactic(auto)]

pub mod program;
mod refusal;
pub mod writing;

ghost use Rattle.std.specs.Prelude.{◌≡◌, ◌+◌, ◌-◌, ◌≤◌, ◌<◌, false, IfOk, length, take, drop};
ghost use Rattle.std.specs.Io.KnownBytes.{Consumes, IsAtEnd};
ghost use Rattle.window.specs.Window.{is_short, filled_of, Refilled};

use std::io::{Error, ErrorKind, Read};

// The bytes of the window that a program holds, and of its output.
pub const WINDOW: usize = 65536;

// What a read gave: the place after the bytes at hand, the place of the window's first byte in the file, and whether
// the file may go on.
#[derive(Clone, Copy)]
pub struct Filled {
    pub to: usize,
    pub base: u64,
    pub more: bool,
}

// Whether fewer bytes are at hand than wanted although the file may go on.
pub fn is_short(from: usize, to: usize, more: bool, wanted: usize) -> bool
    requires { from ≤ to }
    ensures { result ≡ is_short from to more wanted }
{
    more && to - from < wanted
}

// Whether a call that failed was interrupted by a signal.
pub(crate) fn interrupted(error: &Error) -> bool {
    error.kind() == ErrorKind::Interrupted
}

// One read of the file behind the bytes that are not used yet, which move to the front. It needs room: a read into a
// window that is full of them gives nothing, as one at the file's end does. Where fewer are at hand than wanted there
// is room, if no more are wanted than the window holds. A read that fails leaves at the front what was at hand.
pub fn refill<R: Read>(
    reader: &mut R,
    window: &mut [u8],
    from: usize,
    to: usize,
    base: u64,
) -> Result<Filled, Error>
    requires from_le_to { from ≤ to }
    requires to_in_bounds { to ≤ length window.old }
    requires from_bound { base + from < 18446744073709551616 }
    ensures refilled { Refilled window.old from to base window.new (filled_of from to base result) }
    ensures bytes { Consumes (R.remaining reader.old) (R.remaining reader.new)
        (drop (to - from) (take (filled_of from to base result).to window.new)) }
    ensures end { IfOk result (λ filled. to - from < length window.old → filled.more ≡ false →
        IsAtEnd (R.remaining reader.new)) }
{
    let left = to - from;
    let first = base + from as u64;
    window.copy_within(from..to, 0);
    match reader.read(&mut window[left..]) {
        Ok(n) => Ok(Filled {
            to: left + n,
            base: first,
            more: n > 0,
        }),
        Err(error) if interrupted(&error) => Ok(Filled {
            to: left,
            base: first,
            more: true,
        }),
        Err(error) => Err(error),
    }
}
