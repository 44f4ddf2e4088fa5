//! The image of a member: everything that it begins again from, copied out of it; and the member that begins again from an image
//! (docs/FORMATS.md, «Images»).
#![tactic(auto)]

mod restoring;
mod whole;

pub use member_core::{
    AbsorbFault, Core, Entry, Event, EventFault, EventVerdict, Note, Outcome, OwnClaim, PhaseWord,
};
pub use member_restoring::{RestoreFault, Restored, judge};
pub use restoring::{begin, restore};
pub use whole::image;
