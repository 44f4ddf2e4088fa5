ghost use Rattle.std.specs.Prelude.{◌≡◌};
ghost use Rattle.interop_words.specs.declared.line_fault.LineFault.TheVariants as faults;

use rp_base::NoMemory;
use std::alloc::AllocError;

/// Why a line has no answer.
#[derive(Clone, Copy, Debug, PartialEq, Eq)]
pub enum LineFault {
    /// The line is no question.
    NoQuestion,

    /// No memory is left.
    NoMemory,
}

impl From<AllocError> for LineFault {
    ghost from_gives = { λ _ e. e ≡ faults.NoMemory };

    fn from(_: AllocError) -> LineFault {
        LineFault::NoMemory
    }
}

impl From<NoMemory> for LineFault {
    ghost from_gives = { λ _ e. e ≡ faults.NoMemory };

    fn from(_: NoMemory) -> LineFault {
        LineFault::NoMemory
    }
}
