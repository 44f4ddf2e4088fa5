//! All before the events of a schedule, read from bytes (docs/FORMATS.md).
#![tactic(auto)]

mod head;
mod keys;

pub use head::{Head, all_correct, all_corrupt, empty_header, fill, header_of, read_head};
