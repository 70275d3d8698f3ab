// Bytes written to a file until all of them are taken.
ghost use Rattle.std.specs.Prelude.{◌≡◌, true, ◌-◌, ◌<◌, IfSome, length, take, drop};
ghost use Rattle.std.specs.Io.KnownBytes.{Appends};
ghost use Rattle.window.specs.Writing.{Wrote};

use crate::interrupted;
use std::io::Write;

// How many interruptions a call of `write_out` bears before it gives up, so that it ends whatever the signals: more
// than come, since at a million a second they would take four years.
const INTERRUPTIONS: u64 = 140737488355328;

// What a write left: the place after the bytes that are taken, and how many more interruptions are borne.
#[derive(Clone, Copy)]
struct Written {
    to: usize,
    borne: u64,
}

// One write of the bytes from a place on, or none where it failed. One that takes no byte has failed, unless a signal
// interrupted it.
fn write_some<W: Write>(writer: &mut W, bytes: &[u8], from: usize, borne: u64) -> Option<Written>
    requires { from < length bytes.now }
    ensures wrote { IfSome result (Wrote (length bytes.now) from borne) }
    ensures bytes { IfSome result (λ written. Appends (W.contents writer.old) (W.contents writer.new)
        (take (written.to - from) (drop from bytes.now))) }
{
    match writer.write(&bytes[from..]) {
        Ok(n) if n > 0 => Some(Written {
            to: from + n,
            borne: borne,
        }),
        Err(error) if borne > 0 && interrupted(&error) => Some(Written {
            to: from,
            borne: borne - 1,
        }),
        _ => None,
    }
}

// Writes the bytes, and answers whether the writer took all of them; where it did not, it may have taken some. Whether
// it takes them no contract can say, but where there are no bytes.
pub fn write_out<W: Write>(writer: &mut W, bytes: &[u8]) -> bool
    ensures none { length bytes.now ≡ 0 → result ≡ true }
    ensures bytes { result ≡ true → Appends (W.contents writer.old) (W.contents writer.new) bytes.now }
{
    let mut at: usize = 0;
    let mut borne = INTERRUPTIONS;
    while at < bytes.len() {
        let Some(written) = write_some(writer, bytes, at, borne) else {
            return false;
        };
        at = written.to;
        borne = written.borne;
    }
    true
}
