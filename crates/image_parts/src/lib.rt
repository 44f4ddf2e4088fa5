//! The parts of a member that begins again, each made of the part of an image that holds it (docs/FORMATS.md, «Images»).
#![tactic(auto)]

mod asked;
mod claims;
mod phase;

pub use asked::asked_in;
pub use claim_lists::{ClaimList, Conflicts};
pub use claims::{claims_of, conflicts_of, said_in};
pub use ending_rules::Perceived;
pub use heard_images::{Judge, are_heard, are_once, are_paid, are_placed, hear_list};
pub use phase::{is_certified, own_end, phase_of};
pub use view_phases::{Phase, Pool};
