ghost use Rattle.std.specs.Prelude.{◌≡◌};
ghost use Rattle.kit_reading.specs.declared.faults.KitFault.TheVariants as faults;

use rp_base::NoMemory;
use sig_scheme::PublicKey;
use std::alloc::{AllocError, AllocFailed};
use thiserror::Error;

/// Why no kit was read. Lines are counted from 1.
#[derive(Clone, Copy, Debug, PartialEq, Eq, Error)]
pub enum KitFault {
    /// The writer of the text is to blame: the line is none of a kit of its scheme, or is where it can't be, or names a
    /// process that is not in the roster, or has more than 70,000 bytes, or does not end with a line feed.
    #[error("line {line} is no line of a kit")]
    Line {
        line: usize,
    },

    /// The writer of the text is to blame: an earlier line says the same thing.
    #[error("line {line} repeats an earlier line")]
    Repeated {
        line: usize,
    },

    /// The text was cut, or its writer left a line out that belongs before this one.
    #[error("line {line} comes before a line that is missing")]
    Missing {
        line: usize,
    },

    /// The secret and the key line of its process were not made together: who made the kit is to blame.
    #[error("line {line} has a secret whose public key is not the one on its key line")]
    KeyMismatch {
        line: usize,

        /// The public key that the secret makes.
        made: PublicKey,

        /// The public key on the key line, of the same scheme.
        listed: PublicKey,
    },

    /// Memory ran out, which is nobody's fault: the same text may be read again.
    #[error("out of memory")]
    NoMemory,
}

impl From<NoMemory> for KitFault {
    ghost from_gives = { λ _ e. e ≡ faults.NoMemory };

    fn from(_refused: NoMemory) -> KitFault {
        KitFault::NoMemory
    }
}

impl From<AllocError> for KitFault {
    ghost from_gives = { λ _ e. e ≡ faults.NoMemory };

    fn from(_refused: AllocError) -> KitFault {
        KitFault::NoMemory
    }
}

impl<T: Drop> From<AllocFailed<T>> for KitFault {
    ghost from_gives = { λ _ e. e ≡ faults.NoMemory };

    fn from(_refused: AllocFailed<T>) -> KitFault {
        KitFault::NoMemory
    }
}
