// One event of a tape, run on the market and printed; and the tallies printed.
#![tactic(auto)]

pub mod events;
mod listing;
pub mod stepping;
pub mod tallying;

use lines::LONGEST;
use rows::ROWS;

// The bytes of the longest event: its own line, a fill for each row and a line `gone N` for each.
pub const LONGEST_EVENT: usize = LONGEST * (1 + 2 * ROWS);
