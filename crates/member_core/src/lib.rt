//! One member of a group: a function of its state and an event, with no clock, disk or socket in it (docs/PROTOCOL.md).
#![tactic(auto)]

mod absorbing;
mod attempts;
mod halves;
mod journalled;
mod member;
mod notes;
mod stepping;
mod telling;

pub use absorbing::AbsorbFault;
pub use member::Core;
pub use member_events::{
    Entry, Event, EventFault, EventVerdict, Note, Outcome, OwnClaim, Payload, Sending,
};
pub use member_signing::{Account, Delivered, PhaseWord};
