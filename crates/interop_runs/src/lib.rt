//! Questions on whole runs of a program, over devices in memory: what it wrote, kept and sent, where calls fail and where it is stopped.
#![tactic(auto)]

mod calls;
mod disk;
mod fields;
mod link;
mod numbers;
mod outside;
mod questions;
mod running;
mod telling;

pub use disk::FailingDisk;
pub use link::FailingLink;
pub use outside::Outside;
pub use questions::answer_runs;
pub use running::Program;
