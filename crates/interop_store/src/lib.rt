//! Questions on a replicated store: what it answers to requests and its state after them, and what bytes say as a reply and as a state.
#![tactic(auto)]

mod questions;
mod records;
mod requests;
mod words;

pub use questions::answer_stores;
