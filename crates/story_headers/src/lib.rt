//! The lines of a story before its events, as bytes of the schedule (docs/FORMATS.md).
#![tactic(auto)]

mod headers;

pub use headers::{genesis, group, listed};
