// The CAN records of document 000 and W-208, read out of a log and written into a buffer.
#![tactic(auto)]

mod fd_message;
mod message;
mod message_two;
mod overload;
mod statistic;

pub use fd_message::{fd_message_in, read_fd_message, write_fd_message};
pub use message::{message_in, read_message, write_message};
pub use message_two::{message_two_in, read_message_two, write_message_two};
pub use overload::{overload_in, read_overload, write_overload};
pub use statistic::{read_statistic, statistic_in, write_statistic};
