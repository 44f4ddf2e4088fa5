//! The keys of a process that serves a store: one signs its replies and one its states, each body with a leaf of its own (docs/FORMATS.md,
//! «The store»).
#![tactic(auto)]

mod key;

pub use key::{LeafKey, reply_key, state_key};
pub use rp_base::{NoMemory, Pid};
pub use sig_scheme::Secret;
