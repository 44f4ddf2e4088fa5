ghost use Rattle.std.specs.Prelude.{◌≡◌};
ghost use Rattle.story_reading.specs.declared.faults.AssembleFault.TheVariants as faults;

use rp_base::NoMemory;
use std::alloc::{AllocError, AllocFailed};
use story_defs::StoryFault;

/// Why no schedule was assembled.
#[derive(Clone, Copy, Debug, PartialEq, Eq)]
pub enum AssembleFault {
    /// A line of the text has a fault: its writer is to blame.
    Story(StoryFault),

    /// Memory ran out, which is nobody's fault.
    NoMemory,
}

impl From<NoMemory> for AssembleFault {
    ghost from_gives = { λ _ e. e ≡ faults.NoMemory };

    fn from(_refused: NoMemory) -> AssembleFault {
        AssembleFault::NoMemory
    }
}

impl From<AllocError> for AssembleFault {
    ghost from_gives = { λ _ e. e ≡ faults.NoMemory };

    fn from(_refused: AllocError) -> AssembleFault {
        AssembleFault::NoMemory
    }
}

impl<T: Drop> From<AllocFailed<T>> for AssembleFault {
    ghost from_gives = { λ _ e. e ≡ faults.NoMemory };

    fn from(_refused: AllocFailed<T>) -> AssembleFault {
        AssembleFault::NoMemory
    }
}
