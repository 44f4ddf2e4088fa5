//! The claims of a frame, heard one by one (docs/PROTOCOL.md, «Hearing»).
#![tactic(auto)]

mod hearing;

pub use claim_pool::is_signed;
pub use hearing::{Judge, hear_all};
