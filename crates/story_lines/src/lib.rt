//! Lines of a story: the plain line, and its words read one after another (docs/FORMATS.md).
#![tactic(auto)]

mod faults;
mod scanning;
mod words;

pub use faults::LineFault;
pub use scanning::plain_line;
pub use story_defs::Expected;
pub use words::Words;
