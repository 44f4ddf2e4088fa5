//! The service of a node: what a node asks of the program that is built on it, and what that answers (docs/FORMATS.md, «Nodes»). A node is
//! generic over it; [`NoService`] is that of a node without one. And how a node stops where its journal fails.
#![tactic(auto)]

mod service;
mod silent;
mod stopping;

pub use member_events::{Note, Outcome, Sending};
pub use node_hosts::{
    AbsorbFault, AnySigner, Core, Counts, Entry, Event, EventFault, Host, Hosted, Hosts, Kit,
    LinkKeys, Running, Taken,
};
pub use node_text::{
    LinkFault, Stop, push_drop, push_expel, push_fault, push_host, push_note, push_recv,
    push_refused,
};
pub use service::Service;
pub use silent::NoService;
pub use stopping::stop_at;
