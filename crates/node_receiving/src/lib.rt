//! One line of a node's script that receives: datagram by datagram, each of which is opened and taken, or dropped (docs/FORMATS.md, «Nodes»).
#![tactic(auto)]

mod fetching;
mod hosting;
mod receiving;
mod rooms;
mod taking;
mod telling;

pub use node_taking::{
    AnySigner, Counts, Event, Host, Hosted, Hosts, Kit, NoService, Note, Running, Sending, Service,
    Speaker, Stop, let_frames_out, say, stop_at, take,
};
pub use receiving::receive;
pub use rooms::Rooms;
