//! What every other crate uses: process numbers and sets of them, updates and values, the roster, the outside as
//! traits, and signatures.
#![tactic(auto)]

mod absent;
mod calls;
mod disk;
mod failed;
mod group_id;
mod link;
mod mem_sink;
mod mem_source;
mod memory;
mod pid;
mod pid_set;
mod roster;
mod scheme;
mod streams;
mod updates;
mod writes;

pub use absent::{NoDisk, NoLink};
pub use disk::Disk;
pub use failed::Failed;
pub use group_id::GroupId;
pub use link::{Got, Link};
pub use mem_sink::MemSink;
pub use mem_source::MemSource;
pub use memory::NoMemory;
pub use pid::Pid;
pub use pid_set::{PidSet, Pids};
pub use roster::Roster;
pub use scheme::{Count, PlainScheme, PlainSigner, Retract, Scheme, Signer, Spent, Tally};
pub use streams::{Sink, Source};
pub use updates::{Update, UpdateFault, Value};
pub use writes::write_all;
