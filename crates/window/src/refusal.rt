// The line that tells which line of a text is refused, and by which number: a word, as `write`, the number, the line.
ghost use Rattle.std.specs.Prelude.{[], ◌∷◌, ◌+◌, ◌≤◌, ◌<◌, length};
ghost use Rattle.units.specs.Decimal.{decimal};
ghost use Rattle.window.specs.Refusal.{Lays, refusal_line, longest_behind};

const ZERO: u8 = b'0';

const SPACE: u8 = b' ';

const NEWLINE: u8 = b'\n';

// The bytes behind its word and the space: ten digits, a space, twenty digits and the newline.
pub(crate) const LONGEST_BEHIND: usize = 32;

// The digits of a number from a place on.
fn digits(n: u64, out: &mut [u8], at: usize) -> usize
    requires { at + length (decimal n) ≤ length out.old }
    ensures { Lays out.old at (decimal n) result out.new }
{
    if n < 10 {
        out[at] = ZERO + n as u8;
        return at + 1;
    }
    let last = digits(n / 10, out, at);
    out[last] = ZERO + (n % 10) as u8;
    last + 1
}

// Bytes from the front on.
fn word(out: &mut [u8], bytes: &[u8]) -> usize
    requires { length bytes.now ≤ length out.old }
    ensures { Lays out.old 0 bytes.now result out.new }
{
    let end = bytes.len();
    out[..end].copy_from_slice(bytes);
    end
}

// One byte.
fn put(b: u8, out: &mut [u8], at: usize) -> usize
    requires { at < length out.old }
    ensures { Lays out.old at (b ∷ []) result out.new }
{
    out[at] = b;
    at + 1
}

// Lays the line out from the front of the lent memory, with a word and the space behind it in front, and answers the
// place after it.
pub(crate) fn refusal_line(what: &[u8], code: u32, line: u64, out: &mut [u8]) -> usize
    requires { length what.now + longest_behind ≤ length out.old }
    ensures { Lays out.old 0 (refusal_line what.now code line) result out.new }
{
    let w = word(out, what);
    let c = digits(code as u64, out, w);
    let s = put(SPACE, out, c);
    let l = digits(line, out, s);
    put(NEWLINE, out, l)
}
