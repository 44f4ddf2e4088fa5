//! A replay: from a schedule's bytes, which come in pieces, to its report, over real processes (docs/FORMATS.md, «The report»).
#![tactic(auto)]

mod fault;
mod pieces;
mod replaying;
mod run;
mod under_way;

pub use fault::ReplayFault;
pub use pieces::PIECE_BYTES;
pub use replay_report::World;
pub use replaying::replay;
pub use under_way::Replay;
