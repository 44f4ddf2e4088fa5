//! The first valid claim of each signer and slot, which say who is convicted and by which two claims (docs/PROTOCOL.md,
//! «Statements and slots»).
#![tactic(auto)]

mod conviction;
mod firsts;
mod kept;
mod word;

pub use conviction::Conviction;
pub use firsts::Firsts;
pub use stmt_codec::OwnClaim;
