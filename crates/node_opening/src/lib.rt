//! How a node opens: it takes up the entries of its journal, binds the ports of the processes that it hosts, reports each of them, begins
//! its service, and then goes on with its journal (docs/FORMATS.md, «Nodes»).
#![tactic(auto)]

mod binding;
mod greeting;
mod opening;
mod placing;
mod presenting;
mod reading;
mod setting_out;
mod starting;

pub use opening::open;
pub use restored_hosts::{Snap, judge_line};
