//! The heard claims of a view, with the values that are kept as they come: the places that are certified from the first on and
//! the messages that are named before each, how far places are kept, the updates that more than f members notify, and how far each
//! process's Inits are heard (docs/PROTOCOL.md, «Hearing»).
#![tactic(auto)]

mod ends;
mod places;
mod updates;

pub use places::Places;
pub use slot_quorums::Quorums;
pub use updates::UpdateSet;
