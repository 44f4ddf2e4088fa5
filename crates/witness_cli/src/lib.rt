//! The one call of the program `witness`: words and input in, output, messages and status out.
#![tactic(auto)]

mod commands;
mod top;

pub use top::witness;
