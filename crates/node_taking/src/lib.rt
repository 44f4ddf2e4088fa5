//! One event of a process that a node hosts: its turn, the journal, what goes out of it, and whom the service names after it (docs/FORMATS.md, «Nodes»).
#![tactic(auto)]

mod expelling;
mod keeping;
mod stepping;
mod taking;
mod telling;

pub use expelling::take;
pub use sealing_laws::{
    AnySigner, Counts, Event, Host, Hosted, Hosts, Kit, LinkFault, LinkKeys, NoService, Note,
    Running, SEALED_BYTES, Sending, Service, Speaker, Stop, let_frames_out, push_drop, push_fault,
    push_recv, stop_at,
};
pub use telling::say;
