// Bytes of a line: those before and behind the first of a kind, digits and the number that they spell, and words.
ghost use Rattle.std.specs.Prelude.{◌≡◌, true, ◌≤◌, length};
ghost use Rattle.units.specs.Decimal.{value_of};
ghost use Rattle.sheet.specs.Bytes.{up_to, behind, all_digits, same};

// How many bytes stand before the first mark: all of them where there is none.
pub(crate) fn until(s: &[u8], mark: u8) -> usize
    ensures { result ≡ length (up_to mark s.now) }
{
    s.iter().position(|b| *b == mark).unwrap_or(s.len())
}

// The bytes before the first mark.
pub(crate) fn before(s: &[u8], mark: u8) -> &[u8]
    ensures { result.now ≡ up_to mark s.now }
{
    let n = until(s, mark);
    &s[..n]
}

// The bytes behind the first mark, none where there is none.
pub(crate) fn behind(s: &[u8], mark: u8) -> &[u8]
    ensures { result.now ≡ behind mark s.now }
{
    let n = until(s, mark);
    if n < s.len() {
        let next = n + 1;
        &s[next..]
    } else {
        &s[n..]
    }
}

// Whether every byte is a digit.
pub(crate) fn all_digits(s: &[u8]) -> bool
    ensures { result ≡ all_digits s.now }
{
    s.iter().all(|b| b.is_ascii_digit())
}

// The number that digits spell; nine of them fit.
pub(crate) fn value(s: &[u8]) -> u32
    requires s_value { all_digits s.now ≡ true }
    requires s_len_bound { length s.now ≤ 9 }
    ensures { result ≡ value_of s.now }
{
    let mut v = 0;
    for b in s {
        v = 10 * v + u32::from(*b - b'0');
    }
    v
}

// Whether bytes are a word.
pub(crate) fn is_word(s: &[u8], word: &[u8]) -> bool
    ensures { result ≡ same s.now word.now }
{
    s == word
}
