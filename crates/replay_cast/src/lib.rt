//! Who takes part in the run of a schedule: a real process for each correct one, and the key of each corrupt one, with which
//! its lies are signed (docs/FORMATS.md, «Schedules»).
#![tactic(auto)]

mod bundle;
mod cast;
mod keyed;
mod liar;
mod player;
mod roster;

pub use cast::Cast;
pub use liar::Liar;
pub use member_core::{Core, Event, Outcome, OwnClaim, Payload, Sending};
pub use player::Player;
