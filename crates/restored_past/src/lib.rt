//! What a member that begins again keeps of the views that it left: the pool of the last one and the commit certificates, as an image has
//! them (docs/FORMATS.md, «Images»).
#![tactic(auto)]

mod earlier;
mod last;
mod views;

pub use earlier::{Past, past_before};
pub use image_parts::{
    Judge, Phase, Pool, are_heard, are_once, are_paid, are_placed, asked_in, claims_of,
    conflicts_of, hear_list, own_end, phase_of, said_in,
};
pub use last::keep_last;
pub use reliable_mcast::Archive;
pub use views::installed;
