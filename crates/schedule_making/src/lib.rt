//! Large schedules made from a number (docs/FORMATS.md).
#![tactic(auto)]

mod draws;
mod making;

pub use making::generate;
