//! Stories assembled: the bytes of the schedule that a text spells, or the first line that has a fault (docs/FORMATS.md).
#![tactic(auto)]

mod assembling;
mod drafts;
mod faults;

pub use assembling::assemble;
pub use faults::AssembleFault;
pub use story_defs::{Expected, StoryFault};
