//! What a replicated store is spoken to with: requests, replies and states, read from bytes and spelled, and the keys that sign them
//! (docs/FORMATS.md, «The store»).
#![tactic(auto)]

mod command;
mod fields;
mod pairs;
mod reply;
mod secrets;
mod spelling;
mod state;

pub use command::{Command, read_request};
pub use pairs::{Pair, Pairs, is_store};
pub use reply::{Reply, read_reply};
pub use secrets::{reply_secret, state_secret};
pub use spelling::{push_reply, push_reply_body, push_state, push_state_body};
pub use state::{StateRecord, read_state};
