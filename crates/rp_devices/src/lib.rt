//! A disk and a link in memory, whose calls fail on request.
#![tactic(auto)]

mod bytes;
mod calls;
mod change;
mod images;
mod mem_disk;
mod mem_link;

pub use change::{Change, Left};
pub use mem_disk::MemDisk;
pub use mem_link::{Datagram, MemLink};
