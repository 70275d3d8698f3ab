// The columns of the book: row i is what stands at place i of each, and a row of size 0 is free.
#![tactic(auto)]

pub mod passes;
pub mod row;

// The rows of the book: nine tenants with 24 each.
pub const ROWS: usize = 216;

pub const ROWS_A_TENANT: u32 = 24;

// What every row has of one thing: its side, its price, its size, its owner or its order number.
pub type Column = [u32; ROWS];

pub const BUY: u32 = 1;

pub const SELL: u32 = 2;

// The highest price, in cents.
pub const HIGHEST: u32 = 1000000;

// Above every price, where there is no offer; and past every key of a price.
pub const NO_PRICE: u32 = 1000001;

pub const NO_KEY: u64 = NO_PRICE as u64;

// The largest size, in contracts.
pub const LARGEST: u32 = 999999;

// The last order number, and above every order number.
pub const LAST_NUMBER: u64 = 4294967295;

pub const NO_NUMBER: u64 = 4294967296;
