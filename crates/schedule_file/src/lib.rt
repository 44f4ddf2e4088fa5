//! Schedules: who takes part in a run and what happens in it, and how that is written as bytes (docs/FORMATS.md).
#![tactic(auto)]

mod schedule;
mod writing;

pub use replay_defs::Scheme;
pub use schedule::{Header, Key, Listed, Schedule, ScheduleEvent};
pub use signature_defs::OtsType;
pub use writing::write_schedule;
