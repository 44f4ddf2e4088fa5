//! The view in which an image's process is: what an image says of it is judged, and made what a member that begins again keeps of it
//! (docs/FORMATS.md, «Images»).
#![tactic(auto)]

mod present;
mod reported;

pub use present::{Present, present_in};
pub use reported::is_reported;
pub use restored_left::{
    Account, Archive, ClaimList, Conflicts, Judge, Left, Pool, ProcessState, SaidBefore,
    are_by_place, asked_in, claims_of, conflicts_of, installed, left_in, pair_at, said_in,
};
