//! The store in words: the words of lines, and requests that become the lines that submit them.
#![tactic(auto)]

mod assembling;
mod requests;
mod words;

pub use assembling::{assembled, ended};
pub use rp_base::NoMemory;
pub use store_text_defs::Filter;
pub use words::{both, hex_word, only};
