//! The lines of the views that a process left, of its journal: each shows the view after it, or says that the view's certificate is too
//! large for a frame.
#![tactic(auto)]

mod journals;
mod lines;

pub use audit_core::audit;
pub use journals::lines_in;
