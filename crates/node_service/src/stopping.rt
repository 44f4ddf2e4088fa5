//! How a node stops where its journal fails.
ghost use Rattle.std.specs.Prelude.{◌≡◌};
ghost use Rattle.node_service.specs.Lines.{stop as stop_of};
ghost use Rattle.node_service.specs.Causes.{stop_of_fault};

use journal_rp::JournalFault;
use node_text::Stop;

/// How a node stops where a call of its journal failed so.
pub fn stop_at(fault: JournalFault) -> Stop
    ensures { stop_of result ≡ stop_of_fault fault }
{
    match fault {
        JournalFault::DiskFault => Stop::DiskFailed,
        JournalFault::NotAJournal => Stop::BadJournal(0),
        JournalFault::Entry(place) | JournalFault::Other(place) => Stop::BadJournal(place),
        JournalFault::Full { length, entry } => Stop::Full {
            whole: length,
            entry,
        },
        JournalFault::NoMemory => Stop::NoMemory,
    }
}
