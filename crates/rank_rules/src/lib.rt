//! What a member signs at each rank to decide how a view ends, and what is decided: Ready, Last, Suggest and Ack
//! (docs/PROTOCOL.md, «What is signed», «Values», «Settling»). A file a rule.
#![tactic(auto)]

mod acks;
mod decisions;
mod lasts;
mod ranks;
mod readies;
mod suggests;
mod ways;

pub use acks::{ack_candidate, justified, next_ack};
pub use decisions::{commit, decided};
pub use ending_rules::{Perceived, certified_payload, end_due, notify_due};
pub use lasts::last_due;
pub use readies::ready_due;
pub use suggests::{choose, next_suggest, suggest_due};
