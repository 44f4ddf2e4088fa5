//! The input of `ask`, made of a kit and of lines that nodes which serve wrote (docs/STORE.md).
#![tactic(auto)]

mod gathered;
mod reading;
mod said;
mod stops;
mod word;

pub use rp_base::{Sink, Source};
pub use word::write_question;
