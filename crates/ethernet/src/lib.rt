// The Ethernet records of document 003: the status, the frame and the error that has a frame, each read from an
// object and written as a body. A body is what stands behind the header: its offsets count from the header's end.
#![tactic(auto)]

mod event;
mod frame;
mod frame_error;
mod status;

pub use event::Lent;
pub use frame::{Frame, frame_view};
pub use frame_error::FrameError;
pub use status::Status;
