//! What ends a view: which updates are asked for and notified, the End, and which values are free
//! (docs/PROTOCOL.md, «What is signed», «Values»). A file a rule.
#![tactic(auto)]

mod ends;
mod notifies;
mod updates;
mod values;

pub use ends::end_due;
pub use notifies::{Perceived, notify_due, perceive};
pub use pool_questions::{
    Certificate, Commit, Own, Pool, certified_ack, certified_payload, certified_ready,
    has_notified, last_of, suggestion,
};
pub use values::{cut_justified, free_value, is_quorum};
