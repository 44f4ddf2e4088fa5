//! What a run reports, event by event, from the world that a replay runs.
#![tactic(auto)]

mod telling;

pub use telling::{Telling, tell};
