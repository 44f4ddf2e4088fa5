ghost use Rattle.std.specs.Prelude.{◌≡◌};
ghost use Rattle.journal_rp.specs.declared.fault.JournalFault.TheVariants as faults;

use rp_base::{Failed, NoMemory};
use std::alloc::{AllocError, AllocFailed};
use thiserror::Error;

/// Why a call of a journal failed. `read`, `skip` and `mark` then leave the journal as it was; `start` gave none, and `finish` and `append`
/// have taken theirs, so the disk is started again.
#[derive(Clone, Copy, Debug, PartialEq, Eq, Error)]
pub enum JournalFault {
    /// A call of the disk failed, and its count rose. What was made last before stays.
    #[error("the disk failed")]
    DiskFault,

    /// The disk is not empty, and doesn't begin with the header of this group, these processes and this kit. Whoever chose the
    /// file is to blame.
    #[error("the file is no journal of these processes")]
    NotAJournal,

    /// The gate at this place is open, and no whole entry and next gate follow it. Someone else wrote the file.
    #[error("no entry is at byte {0}")]
    Entry(u64),

    /// The bytes before this place are not those that were marked.
    #[error("the bytes before byte {0} are other ones")]
    Other(u64),

    /// The journal would pass 1,073,741,824 bytes: it has `length` up to and with its closed gate, and the entry has `entry`.
    /// Nothing was written.
    #[error("a journal of {length} bytes has no room for an entry of {entry}")]
    Full { length: u64, entry: u64 },

    /// No memory is left.
    #[error("no memory is left")]
    NoMemory,
}

impl From<Failed> for JournalFault {
    ghost from_gives = { λ _ e. e ≡ faults.DiskFault };

    fn from(_failed: Failed) -> JournalFault {
        JournalFault::DiskFault
    }
}

impl From<NoMemory> for JournalFault {
    ghost from_gives = { λ _ e. e ≡ faults.NoMemory };

    fn from(_refused: NoMemory) -> JournalFault {
        JournalFault::NoMemory
    }
}

impl From<AllocError> for JournalFault {
    ghost from_gives = { λ _ e. e ≡ faults.NoMemory };

    fn from(_refused: AllocError) -> JournalFault {
        JournalFault::NoMemory
    }
}

impl<T: Drop> From<AllocFailed<T>> for JournalFault {
    ghost from_gives = { λ _ e. e ≡ faults.NoMemory };

    fn from(_refused: AllocFailed<T>) -> JournalFault {
        JournalFault::NoMemory
    }
}
