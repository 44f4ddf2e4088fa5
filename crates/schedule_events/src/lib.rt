//! The events of a schedule, read from bytes (docs/FORMATS.md).
#![tactic(auto)]

mod events;

pub use events::{Roles, STEPS, Seen, pass_event, read_event};
