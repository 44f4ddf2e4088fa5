//! The image of a process, from which it begins again: read from the bytes of a snapshot, and written (docs/FORMATS.md,
//! «Images»).
#![tactic(auto)]

mod claim;
mod cursor;
mod entries;
mod fault;
mod image;
mod parts;
mod pushing;
mod reading;
mod rising;
mod writing;

pub use claim::KeptClaim;
pub use fault::SnapshotFault;
pub use image::{Image, LeftView};
pub use reading::read_snapshot;
pub use snapshot_defs::Version;
pub use writing::write_snapshot;
