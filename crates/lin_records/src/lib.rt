// The LIN records of document 001, read out of a log and written into a buffer.
#![tactic(auto)]

mod message;
mod wake_up;

pub use message::{message_in, read_message, write_message};
pub use wake_up::{read_wake_up, wake_up_in, write_wake_up};
