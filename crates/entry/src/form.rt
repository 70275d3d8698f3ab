// The form of an entry.
ghost use Rattle.std.specs.Prelude.{◌≡◌};
ghost use Rattle.entry.specs.Entry.{priced, new_order, cancelling, malformed};

use crate::numbers::{from_one_to, one_or_two};
use crate::{CANCEL, Entry, LIMIT, MARKET};
use rows::{HIGHEST, LARGEST};

// A limit has a price, a market order none.
fn priced(e: Entry) -> bool
    ensures { result ≡ priced e }
{
    match e.kind {
        LIMIT => from_one_to(HIGHEST, e.price.0),
        MARKET => e.price.0 == 0,
        _ => false,
    }
}

// A new order has a side, a life and a size, and no number yet.
fn new_order(e: Entry) -> bool
    ensures { result ≡ new_order e }
{
    priced(e)
        && one_or_two(e.side)
        && one_or_two(e.life)
        && from_one_to(LARGEST, e.size.0)
        && e.number == 0
}

// A cancel has a number and nothing else.
fn cancelling(e: Entry) -> bool
    ensures { result ≡ cancelling e }
{
    let numbered = e.kind == CANCEL && 1 <= e.number;
    let bare = e.side == 0 && e.life == 0 && e.price.0 == 0 && e.size.0 == 0;
    numbered && bare
}

// An entry that is neither a new order nor a cancel, for which its bulk message is refused.
pub fn malformed(e: Entry) -> bool
    ensures { result ≡ malformed e }
{
    !(new_order(e) || cancelling(e))
}
