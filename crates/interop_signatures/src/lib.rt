//! Questions on signatures, of one tree and of trees in levels: keys that are made, what they sign, and what is valid.
#![tactic(auto)]

mod levels;
mod questions;
mod trees;
mod verifying;
mod words;

pub use questions::answer_signatures;
