//! What a process that serves a store replies to the messages that it delivers: each gets a line, with the answer of the store, signed with
//! a leaf of its own (docs/FORMATS.md, «The store»).
#![tactic(auto)]

mod replies;
mod saying;

pub use kv_service::Store;
pub use replies::Replies;
pub use rp_base::{GroupId, NoMemory, Pid, Roster};
pub use store_keys::{LeafKey, Secret, reply_key, state_key};
