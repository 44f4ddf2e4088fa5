//! The report of a world: where its processes are, what was refused, and the answers to the four questions (docs/FORMATS.md, «The report»).
#![tactic(auto)]

mod answers;
mod process_reports;
mod reporting;

pub use replay_questions::{Reported, World, WorldFault};
pub use reporting::report;
