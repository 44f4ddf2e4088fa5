//! The line that a node writes of its snapshot, from which it can begin again (docs/FORMATS.md, «Snapshots»): where its journal is, and of
//! each process that it hosts the image and how many entries it has.
#![tactic(auto)]

#[cfg(test)]
mod data;
mod line;
mod part;
mod taking;
#[cfg(test)]
mod tests;
mod whole;

pub use line::snap_line;
pub use part::Part;
pub use taking::snap;
