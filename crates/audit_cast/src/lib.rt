//! The processes that an audit takes as correct, as they start: each in the journal that hosts it.
#![tactic(auto)]

mod casting;

pub use audit_sources::{AuditFault, Kit, Payload, Source, read_sources};
pub use audit_walk::{
    Conviction, Core, Entry, Firsts, Judge, Outcome, Player, Walk, walk_journals,
};
pub use casting::cast;
