//! The auditor: what journals say of the processes that are taken as correct, whether these agree and are sound, and who is convicted by
//! the claims that came up (docs/PROMISES.md, «Auditor»).
#![tactic(auto)]

mod answers;
mod auditing;
mod convicted;
mod findings;
mod listed;

pub use accounts::Account;
pub use audit_cast::{AuditFault, Core, Entry, Kit, Outcome, Payload, Player, Walk};
pub use auditing::{audit, walk_all};
pub use findings::Findings;
pub use findings_json::Conviction;
