// An object's bytes written as its record, foreign objects written, and a log read and written again.
#![tactic(auto)]

mod foreign;
mod object;
mod whole_log;

pub use foreign::write_foreign;
pub use object::write_object;
pub use whole_log::rewrite;
