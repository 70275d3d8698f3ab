// An entry and what it meets: its form, the settings and their ranges, the away quote, NBB and NBO.
#![tactic(auto)]

use units::grid::Grid;
use units::{Cents, Contracts};

pub mod best_quotes;
pub mod form;
mod numbers;
pub mod ranges;
pub mod refusal;
pub mod words;

// The numbers of an entry.
pub const ENTRY_NUMBERS: usize = 6;

// The most entries of a bulk.
pub const BULK: u32 = 20;

// The most numbers of a bulk's entries.
pub const BULK_NUMBERS: usize = ENTRY_NUMBERS * BULK as usize;

pub const LIMIT: u32 = 1;

pub const MARKET: u32 = 2;

pub const CANCEL: u32 = 3;

pub const DAY: u32 = 1;

pub const NOW: u32 = 2;

// The settings as given. The option's type is 1 call or 2 put; print and close are 0 where there is none.
#[derive(Clone, Copy)]
pub struct Settings {
    pub allocation: u32,
    pub grid: u32,
    pub option: u32,
    pub strike: Cents,
    pub drill: Cents,
    pub far: Cents,
    pub percent: u32,
    pub least: Cents,
    pub greatest: Cents,
    pub print: Cents,
    pub close: Cents,
}

// The settings as accepted: the grid in place of its number, and whether the option is a put.
#[derive(Clone, Copy)]
pub struct Terms {
    pub allocation: u32,
    pub grid: Grid,
    pub put: bool,
    pub strike: Cents,
    pub drill: Cents,
    pub far: Cents,
    pub percent: u32,
    pub least: Cents,
    pub greatest: Cents,
    pub print: Cents,
    pub close: Cents,
}

// An entry as given. Kind 1 limit, 2 market, 3 cancel; side 1 buy, 2 sell; life 1 day, 2 now.
#[derive(Clone, Copy)]
pub struct Entry {
    pub kind: u32,
    pub side: u32,
    pub life: u32,
    pub price: Cents,
    pub size: Contracts,
    pub number: u32,
}

// The away quote; 0 is absent.
#[derive(Clone, Copy)]
pub struct Away {
    pub bid: Cents,
    pub offer: Cents,
}

// The best quotes, book and away together, and the away quote by itself; all before the order trades.
#[derive(Clone, Copy)]
pub struct Quotes {
    pub nbb: Cents,
    pub nbo: Cents,
    pub away: Away,
}
