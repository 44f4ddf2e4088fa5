//! The own place of a member that begins again: what it has delivered and what it has signed in its view, gathered from the parts of an
//! image that hold it (docs/FORMATS.md, «Images»).
#![tactic(auto)]

mod delivered;
mod orders;
mod place;
mod said;

pub use delivered::own_delivered;
pub use own_place::{Own, SignedSlots};
pub use place::{note_signed, place_in};
