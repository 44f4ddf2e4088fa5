//! The words `replay`, `gen` and `keygen`: an input replayed to its report, a schedule made from a number, a kit made as ordered
//! (docs/FORMATS.md, «Words and statuses»). Each call ends with the program's status.
#![tactic(auto)]

mod faults;
mod generating;
mod keygen;
mod replaying;
mod running;
mod stops;
mod streams;

pub use running::{run_gen, run_keygen, run_replay, tell};
pub use stops::Stop;
