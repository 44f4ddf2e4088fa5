//! What a node writes and what it reads: each of its lines, appended to a text, and a line of its script (docs/FORMATS.md, «Nodes»).
#![tactic(auto)]

mod handed;
mod lines;
mod script;
mod stops;
mod telling;
mod words;

pub use accounts::Account;
pub use handed::Handed;
pub use kit_reading::KitFault;
pub use lines::{push_drop, push_expel, push_fault, push_host, push_recv, push_refused};
pub use link_defs::LinkFault;
pub use member_events::{Event, EventFault, Note};
pub use script::{Line, Said, read_line};
pub use stops::Stop;
pub use telling::push_note;
