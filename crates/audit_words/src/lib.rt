//! The word `audit`: a kit is read, and journals, and the line of what an audit of them finds is written (docs/FORMATS.md, «Audit»).
#![tactic(auto)]

mod auditing;

pub use auditing::run_audit;
pub use rp_base::{PidSet, Sink, Source};
