//! What a node does with one turn, once its entry is in the journal for good: it lets out what the turn sends, and reports its notes, also
//! to its service (docs/FORMATS.md, «Nodes»).
#![tactic(auto)]

mod letting;
mod notes;
mod sending;
mod speaker;

pub use journal_rp::{Synced, Turn};
pub use letting::let_out;
pub use node_keys::{Kit, LinkKeys};
pub use node_service::{
    AnySigner, Counts, Event, EventFault, Host, Hosted, Hosts, LinkFault, NoService, Note, Outcome,
    Running, Sending, Service, Stop, Taken, push_drop, push_expel, push_fault, push_recv,
    push_refused, stop_at,
};
pub use sending::{SEALED_BYTES, let_frames_out};
pub use speaker::Speaker;
