//! The text of a schedule (docs/FORMATS.md).
#![tactic(auto)]

mod headers;
mod statements_said;
mod tokens;
mod writing;

pub use tokens::{Token, push_behind};
pub use writing::push_story;
