//! The heard claims of a view, and who says what on each slot: that is counted when a claim is heard, and not when it is asked
//! for (docs/PROTOCOL.md, «Hearing»).
#![tactic(auto)]

mod cell;
mod quorums;

pub use claim_index::{Batch, Claim, MOST_PLACES, Slot, Statement, View, faulty};
pub use quorums::Quorums;
