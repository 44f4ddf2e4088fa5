ghost use Rattle.std.specs.Prelude.{◌≡◌};
ghost use Rattle.snapshot_lines.specs.declared.fault.ReadError.TheVariants as reads;

use std::alloc::{AllocError, AllocFailed};

/// Why no snapshot was read.
#[derive(Clone, Copy)]
pub(crate) enum ReadError {
    NoMemory,

    /// The bytes are none: so many are left where the fault is, or so many of an image are before it.
    Fault(usize),
}

impl From<usize> for ReadError {
    ghost from_gives = { λ left e. e ≡ reads.Fault left };

    fn from(left: usize) -> ReadError {
        ReadError::Fault(left)
    }
}

impl From<AllocError> for ReadError {
    ghost from_gives = { λ _ e. e ≡ reads.NoMemory };

    fn from(_refused: AllocError) -> ReadError {
        ReadError::NoMemory
    }
}

impl<T: Drop> From<AllocFailed<T>> for ReadError {
    ghost from_gives = { λ _ e. e ≡ reads.NoMemory };

    fn from(_refused: AllocFailed<T>) -> ReadError {
        ReadError::NoMemory
    }
}
