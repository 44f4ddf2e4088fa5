//! Views of a group: who the members are and in which rank, which view follows by an update, which updates are possible, and how many
//! members may be corrupt or make a quorum (docs/PROTOCOL.md, «Views»).
#![tactic(auto)]

mod possible;
mod sizes;
mod view;

pub use possible::{has_key, is_possible};
pub use sizes::{faulty, quorum};
pub use view::{View, next};
