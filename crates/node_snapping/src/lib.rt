//! The line `snap` of a node's script: the line of the node's snapshot is written, and nothing else changes (docs/FORMATS.md, «Snapshots»).
#![tactic(auto)]

mod parts;
mod snapping;

pub use node_serving::{
    AnySigner, Event, Hosted, Hosts, Kit, NoService, Note, Rooms, Running, Sending, Service, Stop,
    receive, serve, take,
};
pub use snapping::snap;
