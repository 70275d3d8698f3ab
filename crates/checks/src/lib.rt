// Whether a new order is turned down: the checks 10 to 19, from a few numbers and no rows, and the conversion between
// them.
#![tactic(auto)]

pub mod turn_down;

// Where the session stands as the entry is taken: whether it is open, the tenant's resting rows, and the next order
// number.
#[derive(Clone, Copy)]
pub struct Standing {
    pub opened: bool,
    pub resting: u32,
    pub next: u64,
}
