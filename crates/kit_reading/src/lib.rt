//! Kits read from text. docs/FORMATS.md says how they are spelled.
#![tactic(auto)]

mod faults;
mod fronts;
mod reading;
mod taking;

pub use faults::KitFault;
pub use fronts::{Front, FrontFault, read_front};
pub use kit_file::Kit;
pub use line_input::{InputFault, Lines, Next, Source};
pub use reading::read_kit;
