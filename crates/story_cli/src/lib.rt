//! The one call of the program `story`: words and input in, output, messages and status out.
#![tactic(auto)]

mod commands;
mod giving;
mod messages;
mod running;
mod stops;
mod streams;
mod top;

pub use top::story;
