//! How far a process is in its view, with a type for each phase, which keeps what the process is to remember of it
//! (docs/PROTOCOL.md, «Settling»). What may be signed in a phase is the rules' (`multicast_rules`, `ending_rules`, `rank_rules`).
#![tactic(auto)]

mod deciding;
mod phases;
mod settling;

pub use multicast_rules::{Own, Pool, counts_of, deliverable};
pub use phases::{
    ClosingView, DecidedView, Decision, HaltedView, Observing, OpenView, Phase, PhaseMark,
    PhaseWord,
};
pub use settling::Settled;
