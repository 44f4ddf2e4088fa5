//! The word `chain` of the program `witness`: a kit is read, then the line of a view at which the chain begins, or none, and proofs of the views
//! after it; the line of each view is written (docs/FORMATS.md, «Chains from any view»).
#![tactic(auto)]

mod chaining;
mod starts;

pub use chain_words::{Sink, Source};
pub use chaining::chain;
