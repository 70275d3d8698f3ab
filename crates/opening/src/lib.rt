// The opening's match at a price: what each side fills, what is cancelled so that the open book is neither locked nor
// crossed, and the records.
#![tactic(auto)]

pub mod cancels;
pub mod matching;
