//! What is due is signed: kind after kind, in each the least statement again and again (docs/PROTOCOL.md, «What is signed»).
#![tactic(auto)]

mod making;
mod putting;
mod signing;

pub use member_state::{Account, Before, Conflicts, Delivered, PhaseWord, ProcessState};
pub use signing::sign_all;
