//! What was read of a kit so far, and where the next line belongs.
#![tactic(auto)]

mod draft;

pub use draft::Draft;
