//! The store in words: what a line about a store says, and what a filter makes of a line (docs/STORE.md).
#![tactic(auto)]

mod answers;
mod filters;
mod meanings;
mod reported;
mod sentences;
mod states;
mod words;

pub use filters::made_of;
pub use rp_base::NoMemory;
pub use store_wording::Filter;
