//! A journal as an audit reads it: whether its header is of the kit, and what is at its gates, one after another
//! (docs/FORMATS.md, «Journals»).
#![tactic(auto)]

mod header;
mod source;
mod steps;

pub use journal_defs::Version;
pub use journal_entries::entry_at;
pub use kit_file::Kit;
pub use source::Source;
pub use steps::Steps;
