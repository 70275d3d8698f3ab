// How one entry is judged, from a few numbers and no rows: turned down, or the bound within which it trades, and its
// disposition.
#![tactic(auto)]

use entry::Entry;
use units::Cents;

mod bound;
pub mod disposition;
pub mod outcome;
pub mod verdict;

// A new order that is not turned down rests before the opening, and trades within a bound after it, as judged.
#[derive(Clone, Copy)]
pub enum Judged {
    Rests(Entry),
    Trades(Entry, Cents),
}
