// The lines that the program prints, byte for byte, and which orders an opening cancelled.
#![tactic(auto)]

pub mod gone;
pub mod line;
mod parts;

// The bytes that the caller lends: lines are laid out in it one after another, and it is written out when the room for
// another is gone.
pub type Output = [u8; 65536];

pub const OUTPUT: usize = 65536;

// No line of an event or of a tape's end is longer: `turn`, five numbers of ten digits, each after a space, and the
// newline.
pub const LONGEST: usize = 60;
