//! A chain of views that anyone can check who holds a group's public keys: each proof shows the view after the one before it
//! (docs/PROTOCOL.md, «Views»).
#![tactic(auto)]

mod chain;
mod readies;
mod shown;

pub use chain::Chain;
pub use chain_defs::ChainFault;
