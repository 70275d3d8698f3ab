// The parts of a line: a word, a number after a space, the newline. Each answers the place after it.
ghost use Rattle.std.specs.Prelude.{◌<◌, length};
ghost use Rattle.units.specs.Decimal.{decimal, two_digits, four_digits};
ghost use Rattle.lines.specs.Lines.{spaced, newline};
ghost use Rattle.lines.specs.Laying.{longest_number, longest_place, Room, Laid};

use crate::Output;

const ZERO: u8 = b'0';

const SPACE: u8 = b' ';

const NEWLINE: u8 = b'\n';

// A word, or any bytes.
pub(crate) fn word(out: &mut Output, at: usize, w: &[u8]) -> usize
    requires { Room out.old at (length w.now) }
    ensures { Laid out.old at w.now (length w.now) out.new result }
{
    let end = at + w.len();
    out[at..end].copy_from_slice(w);
    end
}

// Two digits of a number below 100, a 0 in front too.
fn two_digits(out: &mut Output, at: usize, n: u32) -> usize
    requires room { Room out.old at 2 }
    requires n_bound { n < 100 }
    ensures { Laid out.old at (two_digits n) 2 out.new result }
{
    out[at] = ZERO + (n / 10) as u8;
    out[at + 1] = ZERO + (n % 10) as u8;
    at + 2
}

// Four digits of a number below 10,000, zeros in front too.
fn four_digits(out: &mut Output, at: usize, n: u32) -> usize
    requires room { Room out.old at 4 }
    requires n_bound { n < 10000 }
    ensures { Laid out.old at (four_digits n) 4 out.new result }
{
    let half = two_digits(out, at, n / 100);
    two_digits(out, half, n % 100)
}

// The digits of a number below 10,000.
fn few_digits(out: &mut Output, at: usize, n: u32) -> usize
    requires room { Room out.old at (length (decimal n)) }
    requires n_bound { n < 10000 }
    ensures { Laid out.old at (decimal n) (length (decimal n)) out.new result }
{
    if n < 10 {
        out[at] = ZERO + n as u8;
        return at + 1;
    }
    if n < 100 {
        return two_digits(out, at, n);
    }
    if n < 1000 {
        out[at] = ZERO + (n / 100) as u8;
        return two_digits(out, at + 1, n % 100);
    }
    four_digits(out, at, n)
}

// The digits of a number, the first of them not 0 unless it is the only one; one division gives the last four.
fn digits(out: &mut Output, at: usize, n: u64) -> usize
    requires { Room out.old at (length (decimal n)) }
    ensures { Laid out.old at (decimal n) (length (decimal n)) out.new result }
{
    if n < 10000 {
        return few_digits(out, at, n as u32);
    }
    let last = digits(out, at, n / 10000);
    four_digits(out, last, (n % 10000) as u32)
}

// A place in a tape or a count of a tally, after a space: at most twenty digits.
pub(crate) fn long_number(out: &mut Output, at: usize, n: u64) -> usize
    requires { Room out.old at longest_place }
    ensures { Laid out.old at (spaced n) longest_place out.new result }
{
    out[at] = SPACE;
    digits(out, at + 1, n)
}

// A number after a space: at most ten digits. Most of a line's numbers have one, which is laid out at once.
pub(crate) fn number(out: &mut Output, at: usize, n: u32) -> usize
    requires { Room out.old at longest_number }
    ensures { Laid out.old at (spaced n) longest_number out.new result }
{
    out[at] = SPACE;
    if n < 10 {
        out[at + 1] = ZERO + n as u8;
        return at + 2;
    }
    digits(out, at + 1, u64::from(n))
}

// The end of a line.
pub(crate) fn newline(out: &mut Output, at: usize) -> usize
    requires { Room out.old at 1 }
    ensures { Laid out.old at newline 1 out.new result }
{
    out[at] = NEWLINE;
    at + 1
}
