// The LIN records of document 001: the wake-up, and the message, which ends in one of three ways. A body is what stands
// behind the header: its offsets count from the header's end.
#![tactic(auto)]

mod bus;
mod message;
mod tail;
mod wake_up;

pub use message::Message;
pub use tail::Tail;
pub use wake_up::WakeUp;
