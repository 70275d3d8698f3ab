// How an order is shared among the rows that it may trade with: what of a row stands at a price, who came first, what
// the whole part of a share is.
#![tactic(auto)]

pub mod row;
