//! Questions on frames and statements: what bytes say.
#![tactic(auto)]

mod frames;

pub use frames::{answer_frames, fault_word};
