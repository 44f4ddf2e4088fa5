//! What the rules ask of a pool besides its own calls: what members say of the view's end and of ranks, and what is certified
//! of a rank, a place and a message (docs/PROTOCOL.md, «Hearing»).
#![tactic(auto)]

mod certified;
mod notices;
mod parts;
mod said;

pub use certified::{certified_ack, certified_batch, certified_payload, certified_ready};
pub use claim_pool::{CertKind, Certificate, Commit, Keep, Message, Own, Place, Pool, WINDOW};
pub use member_events::{EventFault, Slot};
pub use notices::{has_notified, removed_rank};
pub use said::{end_of, last_of, ordered_batch, suggestion};
