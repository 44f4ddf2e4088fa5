//! What a process reports of itself: the views that it installed, what it delivered in each, what it accepted, and the updates
//! that it perceived (docs/PROMISES.md). Reports and the questions of a group read nothing else of it.
#![tactic(auto)]

mod account;
mod copies;
mod mark;

pub use account::Account;
pub use copies::copy_account;
pub use mark::AccountMark;
pub use member_events::{Delivered, Payload};
