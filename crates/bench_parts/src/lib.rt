//! What benches share: how many blocks SHA-256 hashes for signatures, blocks that are hashed alone, and groups with plain keys.
#![tactic(auto)]

mod blocks;
mod counted;
mod processes;

pub use blocks::{TimedBlocks, blocks_of, seconds, time_blocks};
pub use counted::{Counted, Work};
pub use processes::{key_of, plain_roster, process};
