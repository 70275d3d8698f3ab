// Several numbers, one after the other.
ghost use Rattle.std.specs.Prelude.{◌≡◌, IsErr, IfErr};
ghost use Rattle.tape.specs.declared.Refusal.TheVariants.{Number};
ghost use Rattle.tape.specs.Tape.{refusal_at, stored};
ghost use Rattle.tape.specs.Several.{several_at, values_at};

use crate::{Refusal, Refused};

// The refusal of a number that is none, with its place.
pub(crate) fn refused(told: Result<(u32, usize), numeral::Refusal>, place: usize) -> Refused
    requires { IsErr told }
    ensures { IfErr told (λ why. result ≡ refusal_at (Number why) place) }
{
    Refused {
        why: Refusal::Number(told.unwrap_err()),
        place,
    }
}

// So many numbers, stored from the front of the lent memory as far as it reaches: the place after the last of them, or
// the refusal of the first that is none.
pub(crate) fn read_several(s: &[u8], at: usize, n: usize, out: &mut [u32]) -> Result<usize, Refused>
    ensures answer { result ≡ several_at n s.now at }
    ensures kept { out.new ≡ stored (values_at n s.now at) out.old }
{
    let mut next = at;
    for i in 0..n {
        let one = numeral::read(s, next);
        let Ok((v, end)) = one else {
            return Err(refused(one, next));
        };
        if i < out.len() {
            out[i] = v;
        }
        next = end;
    }
    Ok(next)
}
