// The Ethernet records of document 003, read out of a log and written into a buffer.
#![tactic(auto)]

mod frame;
mod frame_error;
mod lent;
mod status;

pub use frame::{
    bytes_in, frame_in, read_forwarded_frame, read_frame, write_forwarded_frame, write_frame,
};
pub use frame_error::{
    error_in, read_error, read_forwarded_error, write_error, write_forwarded_error,
};
pub use status::{read_status, status_in, write_status};
