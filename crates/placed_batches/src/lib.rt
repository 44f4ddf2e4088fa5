//! The batches of the places that are certified from the first on, and before each place, how many messages of each member
//! they name (docs/PROTOCOL.md, «Hearing»).
#![tactic(auto)]

mod counting;
mod prefix;

pub use prefix::PlacedBatches;
