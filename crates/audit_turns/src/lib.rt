//! The processes that an audit takes as correct, and the claims that came up, as entries of journals are read one after another.
#![tactic(auto)]

mod player;
mod walk;

pub use audit_claims::{Conviction, Firsts, Judge};
pub use member_core::{AbsorbFault, Account, Core, Entry, Outcome};
pub use player::Player;
pub use walk::Walk;
