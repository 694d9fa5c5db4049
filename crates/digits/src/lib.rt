// Numbers as digits over a base of 2 to 16, and bytes as pairs of hex digits: written before a place of a buffer, and
// read at a place of a text.
#![tactic(auto)]

mod pairs;
mod reading;
mod writing;

pub use pairs::{get_pairs, put_pairs};
pub use reading::{Number, byte, read_number};
pub use writing::{decimal, hex, labelled, put, spell};
