ghost use Rattle.std.specs.Prelude.{◌≡◌};
ghost use Rattle.story_lines.specs.declared.faults.LineFault.TheVariants as faults;

use rp_base::NoMemory;
use std::alloc::{AllocError, AllocFailed};
use story_defs::Expected;

/// Why a line is not taken.
#[derive(Clone, Copy, Debug, PartialEq, Eq)]
pub enum LineFault {
    /// This was expected in its place: its writer is to blame.
    Expected(Expected),

    /// Memory ran out, which is nobody's fault.
    NoMemory,
}

impl From<NoMemory> for LineFault {
    ghost from_gives = { λ _ e. e ≡ faults.NoMemory };

    fn from(_refused: NoMemory) -> LineFault {
        LineFault::NoMemory
    }
}

impl From<AllocError> for LineFault {
    ghost from_gives = { λ _ e. e ≡ faults.NoMemory };

    fn from(_refused: AllocError) -> LineFault {
        LineFault::NoMemory
    }
}

impl<T: Drop> From<AllocFailed<T>> for LineFault {
    ghost from_gives = { λ _ e. e ≡ faults.NoMemory };

    fn from(_refused: AllocFailed<T>) -> LineFault {
        LineFault::NoMemory
    }
}
