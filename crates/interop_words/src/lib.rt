//! The words of a question, read, and why a line has no answer.
#![tactic(auto)]

mod fields;
mod line_fault;

pub use fields::{read_array, read_bytes, read_number, words_of};
pub use line_fault::LineFault;
