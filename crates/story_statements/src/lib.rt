//! Statements in words, as the lies of a story have them (docs/FORMATS.md).
#![tactic(auto)]

mod parts;
mod reading;

pub use reading::statement;
