//! The processes that a node hosts: each as it starts, with the keys that it shares with the others and its port, borrowed or handed out by
//! its number. Which process of the definitions each is, `AreHosts` of the specs says; which node a running one is, `IsNode`.
#![tactic(auto)]

mod counts;
mod host;
mod hosts;
mod making;
mod running;

pub use counts::Counts;
pub use host::Host;
pub use hosted_core::{AbsorbFault, Core, Entry, Event, EventFault, Hosted, Taken};
pub use hosts::Hosts;
pub use node_keys::{Kit, LinkKeys};
pub use running::Running;
pub use sig_scheme::AnySigner;
