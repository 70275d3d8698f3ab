// What one row counts for among those that share an order, by its key, its size and its order number.
ghost use Rattle.std.specs.Prelude.{◌≡◌, eqb};
ghost use Rattle.units.specs.Picked.{keep, precedes};
ghost use Rattle.levels.specs.Levels.{tradable_at, whole_of};

use rows::row::{key, open_size};
use units::{Cents, Contracts, Total};

// a comes before b; or they are the same, and n comes before m.
pub fn precedes(a: u64, b: u64, n: u32, m: u32) -> bool
    ensures { result ≡ precedes a b n m }
{
    a < b || (a == b && n < m)
}

// What a row holds, if it stands at key c.
fn held_at(k: u64, size: Contracts, c: u64) -> Contracts
    ensures { result.0 ≡ keep (eqb k c) size.0 }
{
    if k == c { size } else { Contracts(0) }
}

// What may be traded of a row, if it stands at key c.
pub fn tradable_at(
    side: u32,
    bound: Cents,
    c: u64,
    row_side: u32,
    price: Cents,
    size: Contracts,
) -> Contracts
    ensures { result.0 ≡ tradable_at side bound.0 c row_side price.0 size.0 }
{
    held_at(
        u64::from(key(side, price)),
        open_size(side, bound, row_side, price, size),
        c,
    )
}

// The whole part of a row's share of what is left, or all of it where all can be had.
pub fn whole(left: Contracts, size: Contracts, total: Total) -> Contracts
    ensures { result.0 ≡ whole_of left.0 size.0 total.0 }
{
    let q = u64::from(left.0);
    if total.0 <= q {
        size
    } else {
        Contracts((q * u64::from(size.0) / total.0) as u32)
    }
}
