//! The processes with which a node begins at a place of its journal: the line of a snapshot is read, and each of its images judged, before any
//! call of the disk (docs/FORMATS.md, «Snapshots»).
#![tactic(auto)]

#[cfg(test)]
mod data;
mod judged;
mod judging;
mod parts;
mod snap;
#[cfg(test)]
mod tests;

pub use judged::Judged;
pub use member_restoring::Restored;
pub use node_keys::Kit;
pub use sig_scheme::AnySigner;
pub use snap::{Snap, judge_line};
pub use snapshot_lines::Version;
