//! The calls of a journal on a disk, and what a crash leaves at every moment of each.
#![tactic(auto)]

mod beginning;
mod closing;
mod digests;
mod pieces;
mod writing;

pub use beginning::begin;
pub use closing::close_gate;
pub use digests::digest_before;
pub use pieces::{byte_at, fill_from, length_of, long_at};
pub use writing::{append, open_gate, stage};
