//! The hosts with which a node begins at a place of its journal: each process of a snapshot that was judged goes on as it was there, with its
//! keys and its port (docs/FORMATS.md, «Snapshots»).
#![tactic(auto)]

mod again;
mod hosts;

pub use hosts::{Begun, hosts_of};
pub use node_images::{Judged, Kit, Snap, Version, judge_line};
pub use node_service::{
    AbsorbFault, Counts, Entry, Event, Hosts, Running, Service, Stop, push_host, stop_at,
};
