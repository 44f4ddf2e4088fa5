//! The server of one hosted process: it follows the process, answers the messages that it delivers, gives the state of its view, and takes
//! states over (docs/FORMATS.md, «The store»). The words `serve FILE` run one for each hosted process.
#![tactic(auto)]

mod beginning;
mod noting;
mod server;
mod wording;

pub use accounts::{Account, Delivered, Payload};
pub use member_events::Note;
pub use server::{Server, longest, push_keys};
pub use sig_scheme::{AnyScheme, OtsType, Secret};
pub use store_giving::View;
pub use store_replies::{GroupId, NoMemory, Pid, Roster};
