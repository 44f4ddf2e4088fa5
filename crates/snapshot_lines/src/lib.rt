//! The line by which a node begins at a place of its journal, as it is read: which place that is, and of each process that the node hosts
//! its image (docs/FORMATS.md, «Snapshots»).
#![tactic(auto)]

mod bytes;
mod cursor;
mod fault;
mod line;

pub use bytes::{Part, SnapSaid};
pub use line::read_snap;
pub use snapshot_rp::{Image, KeptClaim, Version};
