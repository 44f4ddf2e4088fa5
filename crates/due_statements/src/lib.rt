//! What a member signs next of each kind: the least statement that is due, whole (docs/PROTOCOL.md, «What is signed»).
#![tactic(auto)]

mod inputs;
mod kind;

pub use inputs::{RuleInputs, due, is_due};
pub use kind::{KINDS, Kind};
