//! The script of a node: each line is read and carried out, one after the other, until the node ends (docs/FORMATS.md, «Nodes»).
#![tactic(auto)]

mod carrying;
mod reading;
mod running;

pub use carrying::carry_out;
pub use node_input::{
    Front, Kit, Line, Lines, Said, Source, Stop, most_of_line, number_after, read_kit, take_line,
};
pub use node_snapping::{
    AnySigner, Event, Hosted, Hosts, NoService, Note, Rooms, Running, Sending, Service,
};
pub use running::run_script;
