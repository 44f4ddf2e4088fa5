//! The image of a member's state: everything of which the member begins again, copied out of it (docs/FORMATS.md, «Images»).
#![tactic(auto)]

mod claims;
mod left;
mod reported;
mod signed;
mod whole;

pub use member_settling::ProcessState;
pub use snapshot_rp::Image;
pub use whole::image_in;
