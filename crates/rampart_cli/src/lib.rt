//! The program's one call: words and input in, output and status out.
#![tactic(auto)]

mod asking;
mod top;

pub use top::{journal_name, rampart};
