//! The journals of an audit: whether all of them are of the kit, and which of them hosts a process.
#![tactic(auto)]

mod fault;
mod headers;
mod hosts;

pub use fault::AuditFault;
pub use headers::read_sources;
pub use hosts::{HostedBy, first_missing, first_repeated, host_of};
pub use journal_steps::{Kit, Source, Steps, Version};
pub use stmt_codec::Payload;
