// A bulk of entries, as it is given: whether it is well counted and well formed, and whether a lane has room for it.
ghost use Rattle.std.specs.Prelude.{◌≡◌, ◌+◌, ltb};
ghost use Rattle.lanes.specs.Ring.{depth};
ghost use Rattle.lanes.specs.Bulk.{well_counted, some_malformed};

use crate::DEPTH;
use crate::ring::given;
use entry::form::malformed;
use entry::{BULK, ENTRY_NUMBERS};

// A count of 1 to 20, with the numbers of so many entries lent.
pub fn well_counted(count: u32, numbers: &[u32]) -> bool
    ensures { result ≡ well_counted count numbers.now }
{
    1 <= count && count <= BULK && numbers.len() == ENTRY_NUMBERS * count as usize
}

// Whether an entry of a bulk is malformed.
pub fn some_malformed(count: u32, numbers: &[u32]) -> bool
    ensures { result ≡ some_malformed count numbers.now }
{
    (0..count as usize).any(|j| malformed(given(numbers, j)))
}

// Waiting plus count above 64.
pub fn too_many(waiting: u32, count: u32) -> bool
    ensures { result ≡ ltb depth (waiting + count) }
{
    DEPTH < waiting as usize + count as usize
}
