// What one entry makes of a book: a cancel frees the row of its order; a new order is turned down, rests, or trades. It
// works from the parts of a series, the tallies and the book, and knows neither the lanes nor the rotation. An accepted
// order is given the number that the caller names.
#![tactic(auto)]

pub mod credit;
pub mod deal;
pub mod open;
mod settle;

use entry::refusal::TurnDown;
use entry::{Away, Terms};
use judge::outcome::Disposition;
use tally::Tallies;
use units::Contracts;

// The parts of a series that an entry is dealt with by: its terms, the away quote, and whether it is open.
#[derive(Clone, Copy)]
pub struct Series {
    pub terms: Terms,
    pub away: Away,
    pub opened: bool,
}

// What came of an entry: it is turned down for a reason; or cancels the order of that number; or is accepted as an
// order of that number, with the contracts filled, its disposition, and how many fill records it wrote.
#[derive(Clone, Copy)]
pub enum Came {
    TurnedDown(TurnDown),
    Cancelled(u32),
    Accepted(u32, Contracts, Disposition, usize),
}

// The tallies that an entry leaves, and what came of it.
#[derive(Clone, Copy)]
pub struct Dealt {
    pub tallies: Tallies,
    pub came: Came,
}
