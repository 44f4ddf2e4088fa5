ghost use Rattle.std.specs.Prelude.{◌≡◌};
ghost use Rattle.snapshot_rp.specs.declared.fault.ReadError.TheVariants as reads;

use std::alloc::{AllocError, AllocFailed};
use thiserror::Error;

/// Why no image was read.
#[derive(Clone, Copy, Debug, PartialEq, Eq, Error)]
pub enum SnapshotFault {
    /// The bytes are no image: this many come before the first field that has a fault, or before the first byte too many.
    /// Whoever wrote them is to blame.
    #[error("no image: the fault is at byte {0}")]
    Image(usize),

    /// Memory ran out, which is nobody's fault: the same bytes may be read again.
    #[error("out of memory")]
    NoMemory,
}

/// Why reading stopped, before the place of a fault is known.
#[derive(Clone, Copy)]
pub(crate) enum ReadError {
    NoMemory,

    /// This many bytes are left where the fault is.
    Fault(usize),
}

impl From<usize> for ReadError {
    ghost from_gives = { λ left e. e ≡ reads.Fault left };

    fn from(left: usize) -> ReadError {
        ReadError::Fault(left)
    }
}

impl From<AllocError> for ReadError {
    ghost from_gives = { λ _ e. e ≡ reads.NoMemory };

    fn from(_refused: AllocError) -> ReadError {
        ReadError::NoMemory
    }
}

impl<T: Drop> From<AllocFailed<T>> for ReadError {
    ghost from_gives = { λ _ e. e ≡ reads.NoMemory };

    fn from(_refused: AllocFailed<T>) -> ReadError {
        ReadError::NoMemory
    }
}
