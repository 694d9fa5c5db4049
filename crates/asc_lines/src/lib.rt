// ASC lines of CAN events: what a line tells, the line of what is told, and a text read as a line.
#![tactic(auto)]

mod reading;
mod told;
mod writing;

pub use reading::read;
pub use told::{Body, Counts, Frame, Head, Told, shown};
pub use writing::put_line;
