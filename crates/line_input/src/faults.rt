ghost use Rattle.std.specs.Prelude.{◌≡◌};
ghost use Rattle.line_input.specs.declared.faults.InputFault.TheVariants as faults;

use rp_base::Failed;
use std::alloc::AllocError;

/// Why no line was taken. Nothing of the input is lost: the next call goes on where this one began.
#[derive(Clone, Copy, Debug, PartialEq, Eq)]
pub enum InputFault {
    /// A read of the source failed.
    Read,

    /// Memory ran out, which is nobody's fault.
    NoMemory,
}

impl From<Failed> for InputFault {
    ghost from_gives = { λ _ e. e ≡ faults.Read };

    fn from(_: Failed) -> InputFault {
        InputFault::Read
    }
}

impl From<AllocError> for InputFault {
    ghost from_gives = { λ _ e. e ≡ faults.NoMemory };

    fn from(_refused: AllocError) -> InputFault {
        InputFault::NoMemory
    }
}
