//! The entries of a journal: read from bytes, and spelled (docs/FORMATS.md, «Journals»).
#![tactic(auto)]

mod cursor;
mod entry_bytes;
mod gates;
mod reading;
mod spelling;

pub use entry_bytes::EntryBytes;
pub use gates::entry_at;
pub use reading::read_entry;
pub use spelling::staged_entry;
