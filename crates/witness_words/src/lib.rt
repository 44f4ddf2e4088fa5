//! What of journals travels: lines that say whom an audit convicts, each with the two signed claims that do, and what a judge takes of such
//! lines; and lines that show the views of the group (docs/FORMATS.md, «Evidence»).
#![tactic(auto)]

mod convicting;
mod judging;
mod proving;
mod reading;
mod writing;

pub use convicting::convict;
pub use judging::judge;
pub use proving::proofs;
pub use rp_base::{Pid, PidSet, Sink, Source};
