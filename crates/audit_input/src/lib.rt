//! The input of an audit: a kit up to the line `go`, and then journals of any bytes, each after a line that names its length
//! (docs/FORMATS.md, «Audit»); and why a run over it stops, with the line and the status that say so.
#![tactic(auto)]

mod journal_lines;
mod journals;
mod reading;
mod reporting;
mod stops;

pub use audit_sources::Payload;
pub use kit_reading::{FrontFault, Kit, KitFault};
pub use reading::{Input, read_input};
pub use reporting::{finish, report};
pub use rp_base::{Sink, Source};
pub use stops::{Fault, Stop};
