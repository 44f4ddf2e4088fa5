//! The lines of a story's events, as bytes of the schedule (docs/FORMATS.md).
#![tactic(auto)]

mod events;

pub use events::{event, kind_of_word};
