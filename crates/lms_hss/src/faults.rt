ghost use Rattle.std.specs.Prelude.{◌≡◌};

use std::alloc::AllocError;

/// Why no key was made.
#[derive(Clone, Copy, Debug, PartialEq, Eq)]
pub enum KeyFault {
    /// The caller asks for another number of levels than 1, 2 or 3.
    Levels,

    /// The caller asks for a typecode whose tree is not built: not 5, 6 or 7, or 7 in three levels, whose leaves would be
    /// more than 32 bits number.
    TooTall,

    /// The caller asks for W1 in two levels or three, whose signatures would have more than 16,384 bytes.
    TooLong,

    /// There was no memory for the nodes.
    NoMemory,
}

impl From<AllocError> for KeyFault {
    ghost use Rattle.lms_hss.specs.declared.faults.KeyFault.TheVariants.{NoMemory};

    ghost from_gives = { λ _ e. e ≡ NoMemory };

    fn from(_e: AllocError) -> KeyFault {
        KeyFault::NoMemory
    }
}
