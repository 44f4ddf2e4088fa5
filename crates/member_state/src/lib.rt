//! What a process keeps, as one value (docs/ARCHITECTURE.md). `IsStateOf` of the specs says which process of the definitions it is.
//! The crates of a member's event each take it from one moment of the event to the next.
#![tactic(auto)]

mod left;
mod marks;
mod state;

pub use accounts::{Account, Delivered};
pub use ending_rules::{Certificate, Commit, Perceived, perceive};
pub use left::{LeftView, SaidBefore};
pub use marks::Before;
pub use own_moves::{begin_view, deliver_batch};
pub use reliable_mcast::{ClaimList, Conflicts, Displaced, Frames};
pub use state::{ProcessState, pair_at};
pub use view_phases::{
    DecidedView, Decision, Own, Phase, PhaseWord, Pool, Settled, counts_of, deliverable,
};
