// A number's bytes: how many there are, and laid out in lent memory.
ghost use Rattle.std.specs.Prelude.{◌≡◌, length};
ghost use Rattle.std.proofs.lemmas.List.Edits.{sets};
ghost use Rattle.numeral.specs.Encode.{encode_in, encode};

use crate::GROUPS;

// The least numbers that one, two, three and four bytes no longer hold.
const ONE: u32 = 128;

const TWO: u32 = 128 * ONE;

const THREE: u32 = 128 * TWO;

const FOUR: u32 = 128 * THREE;

// How many bytes a number takes.
pub fn length(n: u32) -> usize
    ensures { result ≡ length (encode n) }
{
    if n < ONE {
        return 1;
    }
    if n < TWO {
        return 2;
    }
    if n < THREE {
        return 3;
    }
    if n < FOUR {
        return 4;
    }
    5
}

// Lays a number out from a place on, in as many groups as are allowed: its low seven bits, with the top bit set where
// more follow, before the groups of what is left of it. What the memory does not reach is not stored.
fn put(out: &mut [u8], at: usize, n: u32, allowed: u32)
    ensures { out.new ≡ sets out.old at (encode_in allowed n) }
{
    if allowed == 0 {
        return;
    }
    if out.len() <= at {
        return;
    }
    if n < 128 {
        out[at] = n as u8;
        return;
    }
    out[at] = (n % 128) as u8 + 128;
    put(out, at + 1, n / 128, allowed - 1);
}

// Lays a number out from a place on, as far as the memory reaches, and answers how many bytes it takes.
pub fn write(n: u32, out: &mut [u8], at: usize) -> usize
    ensures bytes { out.new ≡ sets out.old at (encode n) }
    ensures count { result ≡ length (encode n) }
{
    put(out, at, n, GROUPS);
    length(n)
}
