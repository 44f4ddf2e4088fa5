//! The chains of an LM-OTS one-time key, four at a time (RFC 8554, sections 4.3, 4.5 and 4.6).
#![tactic(auto)]

mod by_length;
mod lanes;
mod walks;

pub use by_length::walk_by_length;
pub use walks::{CHAINS, Numbers, Steps, Values, same, secrets, walk_alike};
