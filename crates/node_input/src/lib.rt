//! The input of a node: its kit up to the line `go`, and then its script, line by line (docs/FORMATS.md, «Nodes»).
#![tactic(auto)]

mod kits;
mod lines;

pub use kit_reading::{Front, Kit, KitFault, Lines, Source};
pub use kits::read_kit;
pub use lines::{end_after, most_of_line, number_after, read_next, take_line};
pub use node_text::{Line, Said, Stop};
