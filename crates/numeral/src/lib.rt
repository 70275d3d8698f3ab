// The tape's numbers, read and written: one to five bytes, seven bits each, low group first, the top bit set on all but
// the last.
#![tactic(auto)]

pub mod writing;

ghost use Rattle.std.specs.Prelude.{◌≡◌, ◌≤◌, IfOk, drop};
ghost use Rattle.numeral.specs.Number.{number_in, placed, number_at, refusal_number};

// Why there is no number: cut short; more than one byte, and the last is 0; above 4,294,967,295, or a fifth byte with its
// top bit set.
#[derive(Clone, Copy, PartialEq, Eq)]
pub enum Refusal {
    CutShort,
    Padded,
    TooLarge,
}

impl Refusal {
    // The number that a tape's reader is told: 30, 31 or 32.
    pub fn number(self) -> u32
        ensures { result ≡ refusal_number self }
    {
        match self {
            Refusal::CutShort => 30,
            Refusal::Padded => 31,
            Refusal::TooLarge => 32,
        }
    }
}

// The most groups that a number has, each a byte.
pub const GROUPS: u32 = 5;

// 128 times this is just past 4,294,967,295.
const PAST: u32 = 33554432;

// The number that the bytes from `at` spell and how many they are, where `allowed` of them are still allowed: the first
// group plus 128 times the number that the rest spells. A rest that spells 0 is a last byte of 0, since the rest itself
// was not padded. An answer that tells a count is small enough to need no memory made ready for it.
fn groups(s: &[u8], at: usize, allowed: u32) -> Result<(u32, u32), Refusal>
    ensures answer { placed at result ≡ number_in allowed (drop at s.now) at }
    ensures few { IfOk result (λ told. told.1 ≤ allowed) }
{
    if allowed == 0 {
        return Err(Refusal::TooLarge);
    }
    if s.len() <= at {
        return Err(Refusal::CutShort);
    }
    let b = s[at];
    if b < 128 {
        return Ok((b as u32, 1));
    }
    let (high, count) = groups(s, at + 1, allowed - 1)?;
    if high == 0 {
        return Err(Refusal::Padded);
    }
    if PAST <= high {
        return Err(Refusal::TooLarge);
    }
    Ok(((b % 128) as u32 + 128 * high, count + 1))
}

// The number at a place of a tape with the place after its last byte, or why there is none; a place at or past the end
// is cut short. Most numbers have one byte or two, so these are answered at once.
pub fn read(s: &[u8], at: usize) -> Result<(u32, usize), Refusal>
    ensures { result ≡ number_at s.now at }
{
    if at < s.len() {
        let b = s[at];
        if b < 128 {
            return Ok((b as u32, at + 1));
        }
        if at + 1 < s.len() {
            let c = s[at + 1];
            if c < 128 {
                if c == 0 {
                    return Err(Refusal::Padded);
                }
                return Ok(((b % 128) as u32 + 128 * c as u32, at + 2));
            }
        }
    }
    let (value, count) = groups(s, at, GROUPS)?;
    Ok((value, at + count as usize))
}
