// Cases, and what the proved library answers to each: for the comparison with the plain Rust reader of docs/src.
#![tactic(auto)]

mod replies;
mod writing;

pub use replies::{Reply, answer};
pub use writing::{foreign_reply, rewrite_reply, write_reply};
