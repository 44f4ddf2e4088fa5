//! Runs a schedule: one real process for each correct one, the frames that are sent, each kept once, and the deliveries that
//! wait (docs/FORMATS.md, «Schedules»).
#![tactic(auto)]

mod fault;
mod lying;
mod starting;
mod traffic;
mod world;

pub use fault::WorldFault;
pub use happenings::Reported;
pub use replay_cast::Player;
pub use traffic::Sent;
pub use world::{Refused, World};
