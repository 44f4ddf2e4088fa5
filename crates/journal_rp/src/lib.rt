//! A journal on a disk: it keeps what the processes of a node took in, turn by turn, and no crash splits a turn
//! (docs/FORMATS.md, «Journals»).
//!
//! A journal is started on a disk, read entry by entry to its closed gate, finished, and then appended to. A type for each
//! stage says which calls there are: `Journal<Reading>` is read, `Journal<Writing>` appended to. What a turn sends is given by
//! `Turn<Synced, P>` alone, which `append` alone gives, and so is the process that took it: whoever lost a turn has no process that is
//! ahead of its journal (docs/DECISIONS.md, «Turns»).
//!
//! Each call needs the disk to be as long as the journal's last call left it, and each promise on its bytes holds where
//! the disk says what they are. After a fault of `read` or `skip` the journal is where it was, and may be asked again; after a fault of
//! another call there is no journal any more, and the disk is started again.
#![tactic(auto)]

mod fault;
mod header;
mod journal;
mod marking;
mod reading;
mod starting;
mod turn;
mod writing;

pub use fault::JournalFault;
pub use header::Header;
pub use journal::{Journal, Reading, Writing};
pub use journal_defs::Version;
pub use journal_entries::{EntryBytes, entry_at};
pub use turn::{Journalled, Synced, Turn, Unsynced};
