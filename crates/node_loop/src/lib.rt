//! A node: a kit is read, its journal is opened, and its script is carried out, up to the stop that ends it (docs/FORMATS.md, «Nodes»).
#![tactic(auto)]

mod hosting;
mod last_lines;
mod resuming;

pub use hosting::host;
pub use node_script::{AnySigner, Event, Hosted, Hosts, Kit, NoService, Note, Sending, Service};
pub use resuming::resume_host;
