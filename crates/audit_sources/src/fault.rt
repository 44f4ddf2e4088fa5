ghost use Rattle.std.specs.Prelude.{◌≡◌};
ghost use Rattle.audit_sources.specs.declared.fault.AuditFault.TheVariants as faults;

use rp_base::{NoMemory, Pid};
use std::alloc::{AllocError, AllocFailed};
use thiserror::Error;

/// Why an audit found nothing. Apart from want of memory the first that holds is given, in this order: an entry at place 0, `Missing`,
/// `Repeated`, an entry after a header.
#[derive(Clone, Copy, Debug, PartialEq, Eq, Error)]
pub enum AuditFault {
    /// No journal hosts the listed process, and each lesser one is hosted. Who gave the journals is to blame, or who listed the process.
    #[error("no journal hosts process {}", .0.get())]
    Missing(Pid),

    /// Two journals or more host the listed process, and it is the least such. Who gave the journals is to blame.
    #[error("more than one journal hosts process {}", .0.get())]
    Repeated(Pid),

    /// Of the journal of this index, at place 0: its header is not of the kit. Else: the gate at this place is open, and no whole
    /// entry and next gate follow it; or the entry is a listed process's, and the journal does not host the process, or the process
    /// cannot have written it. Who wrote the journal is to blame.
    #[error("journal {journal} is refused at byte {place}")]
    Entry { journal: usize, place: u64 },

    /// Memory ran out, which is nobody's fault: the same journals may be audited again.
    #[error("out of memory")]
    NoMemory,
}

impl From<NoMemory> for AuditFault {
    ghost from_gives = { λ _ e. e ≡ faults.NoMemory };

    fn from(_refused: NoMemory) -> AuditFault {
        AuditFault::NoMemory
    }
}

impl From<AllocError> for AuditFault {
    ghost from_gives = { λ _ e. e ≡ faults.NoMemory };

    fn from(_refused: AllocError) -> AuditFault {
        AuditFault::NoMemory
    }
}

impl<T: Drop> From<AllocFailed<T>> for AuditFault {
    ghost from_gives = { λ _ e. e ≡ faults.NoMemory };

    fn from(_refused: AllocFailed<T>) -> AuditFault {
        AuditFault::NoMemory
    }
}
