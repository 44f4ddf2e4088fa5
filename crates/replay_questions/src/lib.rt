//! The question `honest` of a schedule's report: whether all that was handed over of correct processes is their own word
//! (docs/FORMATS.md, «The report»).
#![tactic(auto)]

mod frames;
mod groups;
mod honesty;
mod words;

pub use honesty::honest;
pub use replay_world::{Player, Refused, Reported, World, WorldFault};
