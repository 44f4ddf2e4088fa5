//! A line of a node's script that is for the service: what the service says to it is written, and what it sends is sealed and sent
//! (docs/FORMATS.md, «Nodes»).
#![tactic(auto)]

mod serving;

pub use node_receiving::{
    AnySigner, Counts, Event, Host, Hosted, Hosts, Kit, NoService, Note, Rooms, Running, Sending,
    Service, Stop, receive, say, stop_at, take,
};
pub use serving::serve;
