// The FlexRay record of document 002, read out of a log and written into a buffer.
#![tactic(auto)]

mod receive;

pub use receive::{read_receive, receive_in, write_receive};
