// The FlexRay record of document 002: it is read from an object; its body, what stands behind the object's header, is
// tested and written.
#![tactic(auto)]

mod receive;

pub use receive::Receive;
