//! Whom the claims of a frame convict: who signed two of them on one slot that say different things (docs/PROTOCOL.md, «Statements and slots»).
#![tactic(auto)]

mod convicting;
mod own;
mod reading;
mod slots;
mod verifying;

pub use convicting::{convicted_in, convicts};
