//! The own place in a view from one moment to the next: a view begins, and a place is delivered (docs/PROTOCOL.md, «Settling»).
#![tactic(auto)]

mod moves;

pub use moves::{begin_view, deliver_batch, no_counts};
