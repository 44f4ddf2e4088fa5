//! The word `chain`: a kit is read, and proofs of the views after its first one, and each view is written (docs/FORMATS.md, «Chains»).
#![tactic(auto)]

mod chaining;
mod proof_lines;
mod stops;
mod view_lines;

pub use chain_check::Chain;
pub use chaining::{answer_rest, chain, genesis_of, number_behind, take, tell, write_view};
pub use kit_reading::{Kit, Lines, Next, read_front};
pub use proof_lines::MOST_PROOF_LINE;
pub use rp_base::{Sink, Source};
pub use stops::{Fault, Stop};
