//! The one call of the program `store`: words and input in, output, messages and status out.
#![tactic(auto)]

mod commands;
mod filtering;
mod stops;
mod top;

pub use top::store;
