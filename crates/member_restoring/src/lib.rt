//! A member that begins again: an image is judged, and its process made of it, with the signer that it goes on with (docs/FORMATS.md,
//! «Images»).
#![tactic(auto)]

mod fault;
mod judging;
mod restored;
mod state;

pub use fault::RestoreFault;
pub use judging::judge;
pub use restored::Restored;
pub use restored_present::{
    Archive, ClaimList, Conflicts, Judge, Pool, ProcessState, SaidBefore, pair_at,
};
pub use state::state_of;
