//! The replicated store: what its commands do and answer, and its state as bytes (docs/FORMATS.md, «The store»).
#![tactic(auto)]

mod answers;
mod commands;
mod pairs;
mod state;
mod store;

pub use store::Store;
