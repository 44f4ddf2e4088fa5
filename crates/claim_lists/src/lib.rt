//! Lists of claims, with their bytes kept once, and the pairs of conflicting claims that a process keeps (docs/PROTOCOL.md,
//! «Hearing»).
#![tactic(auto)]

mod conflicts;
mod list;

pub use conflicts::Conflicts;
pub use list::ClaimList;
