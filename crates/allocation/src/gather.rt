// The rows that an order may trade with, gathered: each is read once, and every price, and every order at a price, is
// then looked for among those gathered alone.
ghost use Rattle.std.specs.Prelude.{◌≡◌, ◌+◌, ◌*◌, ◌≤◌, ◌<◌};
ghost use Rattle.units.specs.Units.{most32};
ghost use Rattle.units.specs.Sums.{sum_to};
ghost use Rattle.units.specs.Picked.{keep, same};
ghost use Rattle.units.specs.Lent.{found};
ghost use Rattle.rows.specs.Rows.{rows};
ghost use Rattle.levels.specs.Levels.{best_from};
ghost use Rattle.levels.specs.Lent.{keys_in, opens_in, level_in};
ghost use Rattle.allocation.specs.Gathering.{put_after, Gathered, Joined};

use levels::row::tradable_at;
use rows::row::{key, reachable};
use rows::{Column, ROWS};
use units::{Cents, Contracts, Total};

// What a column of gathered rows begins with. Any number does, since only what is put there is read; zeros would be a
// call of the C library.
pub(crate) const UNFILLED: u32 = 1;

// The best key from a floor on among those gathered, and what is held there.
#[derive(Clone, Copy)]
pub(crate) struct Best {
    pub key: u64,
    pub total: Total,
}

// Puts a row's key and what it holds after the others, if it is taken.
fn put_after(
    taken: bool,
    k: u32,
    size: Contracts,
    count: usize,
    keys: &mut Column,
    held: &mut Column,
) -> usize
    requires count_lt_rows { count < rows }
    ensures keys_after { keys.new ≡ put_after taken k keys.old count }
    ensures held_after { held.new ≡ put_after taken size.0 held.old count }
    ensures value { result ≡ count + keep taken 1 }
{
    if taken {
        keys[count] = k;
        held[count] = size.0;
        count + 1
    } else {
        count
    }
}

// The rows within reach of an order, by key and size; and how many they are.
pub(crate) fn in_reach(
    side: u32,
    bound: Cents,
    sides: &Column,
    prices: &Column,
    sizes: &Column,
    keys: &mut Column,
    held: &mut Column,
) -> usize
    ensures { Gathered (keys_in side prices) (opens_in side bound.0 sides prices sizes) rows keys.new held.new result }
{
    let mut count: usize = 0;
    for i in 0..ROWS {
        let price = Cents(prices[i]);
        let size = Contracts(sizes[i]);
        let taken = reachable(side, bound, sides[i], price, size);
        count = put_after(taken, key(side, price), size, count, keys, held);
    }
    count
}

// The orders within reach at key c, by number and size; and how many they are.
pub(crate) fn at_key(
    side: u32,
    bound: Cents,
    c: u64,
    sides: &Column,
    prices: &Column,
    sizes: &Column,
    numbers: &Column,
    orders: &mut Column,
    held: &mut Column,
) -> usize
    ensures { Gathered (found numbers) (level_in side bound.0 c sides prices sizes) rows orders.new held.new result }
{
    let mut count: usize = 0;
    for i in 0..ROWS {
        let size = tradable_at(
            side,
            bound,
            c,
            sides[i],
            Cents(prices[i]),
            Contracts(sizes[i]),
        );
        count = put_after(0 < size.0, numbers[i], size, count, orders, held);
    }
    count
}

// The best key so far and one more: a better one takes its place, and at the same key what is held is added. That the
// size is one of 32 bits is said here, since a lent column does not tell it.
fn joined(best: Best, floor: u64, k: u64, size: Contracts) -> Best
    requires floor_le_key { floor ≤ best.key }
    requires total_bound { best.total.0 ≤ rows * most32 }
    ensures joined { Joined floor k size.0 best.key best.total.0 result.key result.total.0 }
    ensures size_le_most32 { size.0 ≤ most32 }
{
    let at = best.key;
    if k < floor {
        best
    } else if k < at {
        if 0 < size.0 {
            Best {
                key: k,
                total: Total(u64::from(size.0)),
            }
        } else {
            best
        }
    } else if k == at {
        Best {
            key: at,
            total: Total(best.total.0 + u64::from(size.0)),
        }
    } else {
        best
    }
}

// The best key from the floor on among the first `count`, and what they hold there: in one pass.
pub(crate) fn best_from(keys: &Column, held: &Column, count: usize, top: u64, floor: u64) -> Best
    requires count_le_rows { count ≤ rows }
    requires floor_le_top { floor ≤ top }
    ensures key_value { result.key ≡ best_from count top (found keys) (found held) floor }
    ensures total_value { result.total.0 ≡ sum_to (same (found keys) result.key (found held)) count }
{
    let mut best = Best {
        key: top,
        total: Total(0),
    };
    for j in 0..count {
        best = joined(best, floor, u64::from(keys[j]), Contracts(held[j]));
    }
    best
}
