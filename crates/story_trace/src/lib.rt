//! The trace of a run: a line for each thing that happened, in plain words. Each function writes lines after the text so far.
//! On `NoMemory` the end of the text is left open, and the caller discards it.
#![tactic(auto)]

mod claims;
mod events;
mod handed;
mod notes;
mod refusals;
mod steps;
mod trace;

pub use story_words::{Word, process_word, push_pieces};
pub use trace::push_trace;
