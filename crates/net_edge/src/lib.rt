//! The edge: what std's readers and writers say of themselves is trusted; that it is passed on is proved.
#![tactic(auto)]

mod command;
mod streams;

pub use command::run;
pub use streams::{Reading, StdErrors, StdSink, StdSource, Writing};
