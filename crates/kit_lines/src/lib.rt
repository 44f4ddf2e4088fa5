//! The lines of a kit, each read by its words alone. docs/FORMATS.md says how they are spelled.
#![tactic(auto)]

mod first_words;
mod lines;
mod reported;

pub use first_words::{FirstWord, first_word};
pub use lines::{KitLine, line_by, next_process};
pub use reported::{Reported, Version};
