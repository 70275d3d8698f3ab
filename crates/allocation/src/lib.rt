// The edge of an order, where it runs out: how far it reaches by price and in line, and what each row trades, told by
// that.
#![tactic(auto)]

mod gather;
pub mod reach;
pub mod shares;
