//! The lines of an input: taken from a source one after another, each up to a limit of bytes.
#![tactic(auto)]

mod faults;
mod lines;

pub use faults::InputFault;
pub use lines::{Lines, Next};
pub use rp_base::Source;
