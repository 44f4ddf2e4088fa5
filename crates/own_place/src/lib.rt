//! A process's own place in its view: what it has signed there, and how far it has delivered (docs/PROTOCOL.md, «What is signed»).
#![tactic(auto)]

mod noting;
mod own;
mod rows;
mod signed;

pub use claim_index::{ClaimIndex, View};
pub use own::{Own, OwnMark};
pub use signed::SignedSlots;
