// The slip check: whether the slips of a bundle name the objects of a log, each exactly once.
#![tactic(auto)]

mod bundle;
mod left;
mod merge;
mod pass;

pub use bundle::Place;
pub use pass::check;
