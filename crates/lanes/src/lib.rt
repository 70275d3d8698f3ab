// Nine lanes of 64 entries, one for each tenant, and the rotation among them. A lane is a ring: its entries stay where
// they were put, and its head moves.
#![tactic(auto)]

use entry::ENTRY_NUMBERS;
use units::TENANTS;

pub mod bulk;
pub mod ring;
pub mod rotation;

ghost use Rattle.std.specs.Prelude.{◌≡◌};
ghost use Rattle.lanes.specs.Ring.{empty};

// The entries that a lane holds.
pub const DEPTH: usize = 64;

// The numbers of all lanes' entries.
pub const ALL_ENTRIES: usize = TENANTS * DEPTH * ENTRY_NUMBERS;

// The entries of all lanes, as plain numbers: lane by lane and entry by entry.
pub type Entries = [u32; ALL_ENTRIES];

// Where a lane's oldest entry stands in its ring, and how many wait in it.
#[derive(Clone, Copy)]
pub struct Lane {
    pub head: u32,
    pub len: u32,
}

// The lanes, tenant by tenant, and the rotation's place.
#[derive(Clone, Copy)]
pub struct Lanes {
    pub lanes: [Lane; TENANTS],
    pub place: usize,
}

impl Lanes {
    // No entry waits, and the rotation is at tenant 0.
    pub fn new() -> Lanes
        ensures { result ≡ empty }
    {
        Lanes {
            lanes: [Lane { head: 0, len: 0 }; TENANTS],
            place: 0,
        }
    }
}
