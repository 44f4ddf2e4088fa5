//! Questions on what a pool hears: the verdict on each claim of a frame, and what is counted and certified then; and whom the claims of a frame
//! convict.
#![tactic(auto)]

mod convictions;
mod hearers;
mod hearing;
mod questions;
mod telling;

pub use questions::answer_pools;
