// How far an order reaches: price by price, and at the last price order by order.
ghost use Rattle.std.specs.Prelude.{◌≡◌, ◌≤◌};
ghost use Rattle.units.specs.Places.{at};
ghost use Rattle.units.specs.Lent.{found};
ghost use Rattle.rows.specs.Rows.{rows, no_price, no_number};
ghost use Rattle.rows.specs.Passes.{resting_within};
ghost use Rattle.levels.specs.Lent.{keys_in, opens_in, level_in};
ghost use Rattle.allocation.specs.Edge.{EdgeAt};
ghost use Rattle.allocation.specs.Ranges.{KeysBelow, Priced, Numbered};

use crate::gather::{UNFILLED, at_key, best_from, in_reach};
use rows::{Column, NO_KEY, NO_NUMBER, ROWS};
use units::{Cents, Contracts, Total};

// The first key whose rows hold more than what is left of the order there, and what is left.
#[derive(Clone, Copy)]
pub struct Edge {
    pub key: u64,
    pub left: Contracts,
}

// The edge of an order of q contracts among the first `count` gathered: key by key, best first, for as long as a key
// is filled whole.
fn edge_among(keys: &Column, held: &Column, count: usize, top: u64, q: Contracts) -> Edge
    requires count_le_rows { count ≤ rows }
    requires top_le_no_number { top ≤ no_number }
    requires keys_below { KeysBelow top count keys.now held.now }
    ensures { EdgeAt count top (found keys) (found held) q.0 result.key result.left.0 }
{
    let mut left: u32 = q.0;
    let mut floor: u64 = 0;
    while floor < top {
        let best = best_from(keys, held, count, top, floor);
        if u64::from(left) < best.total.0 {
            return Edge {
                key: best.key,
                left: Contracts(left),
            };
        }
        left -= best.total.0 as u32;
        floor = best.key + 1;
    }
    Edge {
        key: top,
        left: Contracts(left),
    }
}

// Price by price, best first, among the rows within reach.
fn reached(
    side: u32,
    bound: Cents,
    q: Contracts,
    sides: &Column,
    prices: &Column,
    sizes: &Column,
) -> Edge
    requires { Priced prices.now sizes.now }
    ensures { EdgeAt rows no_price (keys_in side prices) (opens_in side bound.0 sides prices sizes) q.0 result.key result.left.0 }
{
    let mut keys = [UNFILLED; ROWS];
    let mut held = [UNFILLED; ROWS];
    let count = in_reach(side, bound, sides, prices, sizes, &mut keys, &mut held);
    edge_among(&keys, &held, count, NO_KEY, q)
}

// The edge of an order of q contracts, where `all` may be traded: past every price if the order takes all of it.
pub fn edge_of(
    side: u32,
    bound: Cents,
    q: Contracts,
    all: Total,
    sides: &Column,
    prices: &Column,
    sizes: &Column,
) -> Edge
    requires priced { Priced prices.now sizes.now }
    requires all_value { all.0 ≡ resting_within rows (at sides.now) (at prices.now) (at sizes.now) side bound.0 }
    ensures { EdgeAt rows no_price (keys_in side prices) (opens_in side bound.0 sides prices sizes) q.0 result.key result.left.0 }
{
    if all.0 <= u64::from(q.0) {
        Edge {
            key: NO_KEY,
            left: Contracts(q.0 - all.0 as u32),
        }
    } else {
        reached(side, bound, q, sides, prices, sizes)
    }
}

// At the edge by rising order number, for as long as the order is filled whole.
pub fn in_line(
    side: u32,
    bound: Cents,
    m: Edge,
    sides: &Column,
    prices: &Column,
    sizes: &Column,
    numbers: &Column,
) -> Edge
    requires { Numbered sizes.now numbers.now }
    ensures { EdgeAt rows no_number (found numbers) (level_in side bound.0 m.key sides prices sizes) m.left.0 result.key result.left.0 }
{
    let mut orders = [UNFILLED; ROWS];
    let mut held = [UNFILLED; ROWS];
    let count = at_key(
        side,
        bound,
        m.key,
        sides,
        prices,
        sizes,
        numbers,
        &mut orders,
        &mut held,
    );
    edge_among(&orders, &held, count, NO_NUMBER, m.left)
}
