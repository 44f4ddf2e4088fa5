ghost use Rattle.std.specs.Prelude.{◌≡◌};
ghost use Rattle.replay_world.specs.declared.fault.WorldFault.TheVariants as faults;

use rp_base::NoMemory;
use std::alloc::AllocFailed;

/// Why a schedule was not run to its end. Events are numbered from 0.
#[derive(Clone, Copy, Debug, PartialEq, Eq)]
pub enum WorldFault {
    /// A Pass names a frame that is not sent yet: `sent` frames were. The schedule's author is to blame.
    NoSuchFrame { event: u64, frame: u32, sent: usize },

    /// The bytes of all frames pass 1,073,741,824: `bytes` counts them up to the first frame that passes it. The
    /// schedule's author is to blame.
    TooMuchSent { event: u64, bytes: u64 },

    /// Memory ran out, which is nobody's fault.
    NoMemory,
}

impl From<NoMemory> for WorldFault {
    ghost from_gives = { λ _ e. e ≡ faults.NoMemory };

    fn from(_refused: NoMemory) -> WorldFault {
        WorldFault::NoMemory
    }
}

impl<T: Drop> From<AllocFailed<T>> for WorldFault {
    ghost from_gives = { λ _ e. e ≡ faults.NoMemory };

    fn from(_refused: AllocFailed<T>) -> WorldFault {
        WorldFault::NoMemory
    }
}
