//! Lines of text, read word by word and written: a line is its words with one space between them, and ends with a line
//! feed.
#![tactic(auto)]

mod hexadecimal;
mod numbers;
mod parts;

pub use hexadecimal::{WordFault, byte_list, bytes, push_byte_list, push_hex};
pub use numbers::{number, process, push_number};
pub use parts::Parts;
