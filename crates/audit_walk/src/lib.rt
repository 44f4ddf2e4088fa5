//! An audit's walk over journals: the entries of each, one after another, up to its closed gate or to the first that is refused.
#![tactic(auto)]

mod journals;

pub use audit_sources::{AuditFault, Source};
pub use audit_turns::{Conviction, Core, Entry, Firsts, Judge, Outcome, Player, Walk};
pub use journals::{walk_journal, walk_journals};
