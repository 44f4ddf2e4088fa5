//! SHA-256 on four blocks at a time, one in each lane (FIPS 180-4, section 6.2).
#![tactic(auto)]

mod block;
mod digests;
mod messages;
mod words;

pub use block::compress;
pub use digests::{from_lane, to_lanes};
pub use messages::hash_short;
pub use words::{add, choose, shift_left, shift_right, splat};
