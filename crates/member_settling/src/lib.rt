//! Settling: a process decides its view, delivers what it may, and leaves the view (docs/PROTOCOL.md, «Settling»).
#![tactic(auto)]

mod deciding;
mod delivering;
mod leaving;
mod settling;

pub use member_state::{
    ClaimList, Conflicts, Decision, Phase, Pool, ProcessState, SaidBefore, pair_at,
};
pub use settling::settle;
