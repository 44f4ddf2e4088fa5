//! A process whose turns a journal keeps: a member's core that is never ahead of its journal (docs/DECISIONS.md, «Turns»).
//!
//! [`Hosted::take`] takes the process away with its turn, and `Journal::append` alone hands it back, once the turn's entry is in the
//! journal for good. Where a turn is lost, to want of memory or to the disk, its process is lost too: it had signed what its journal does
//! not hold, and a run that went on with it could sign with a leaf twice after the next start.
#![tactic(auto)]

mod hosted;
mod taking;

pub use hosted::Hosted;
pub use member_core::{AbsorbFault, Core, Entry, Event, EventFault, Outcome};
pub use taking::Taken;
