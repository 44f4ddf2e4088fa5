ghost use Rattle.std.specs.Prelude.{◌≡◌, IfOk, IsOk, string_bytes};
ghost use Rattle.interop_lines.specs.declared.stops.Stop.TheVariants as stops;
ghost use Rattle.interop_lines.specs.Stops.{line_of, status_of};

use rp_base::Failed;
use std::alloc::{AllocError, Global};

/// Why not all lines of an input are answered.
#[derive(Clone, Copy, Debug, PartialEq, Eq)]
pub(crate) enum Stop {
    /// No memory is left.
    NoMemory,

    /// The input failed.
    Read,

    /// The output failed.
    Write,

    /// The line with this number, counted from 1, is no question.
    Line(u64),
}

impl Stop {
    /// The status that the program ends with.
    pub(crate) fn status(self) -> u8
        ensures { result ≡ status_of self }
    {
        match self {
            Stop::NoMemory => 1,
            Stop::Read => 3,
            Stop::Write => 4,
            Stop::Line(_) => 7,
        }
    }

    /// The line that says so, empty where none is written.
    pub(crate) fn line(self, alloc: Global) -> Result<String, AllocError>
        ensures line { IfOk result (λ line. string_bytes line ≡ line_of self) }
        ensures write { self ≡ Stop.Write → IsOk result }
    {
        match self {
            Stop::NoMemory | Stop::Write => Ok(String::new(alloc)),
            Stop::Read => String::from_str(alloc, "stop 3 read\n"),
            Stop::Line(number) => format!(in alloc; "stop 7 line {number}\n"),
        }
    }
}

impl From<Failed> for Stop {
    ghost from_gives = { λ _ e. e ≡ stops.Read };

    fn from(_: Failed) -> Stop {
        Stop::Read
    }
}

impl From<AllocError> for Stop {
    ghost from_gives = { λ _ e. e ≡ stops.NoMemory };

    fn from(_: AllocError) -> Stop {
        Stop::NoMemory
    }
}
