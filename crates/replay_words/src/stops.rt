ghost use Rattle.std.specs.Prelude.{◌≡◌};
ghost use Rattle.replay_words.specs.declared.stops.Stop.TheVariants as stops;
ghost use Rattle.replay_words.specs.Statuses.{status_of, line_of, stop_of};

use crate::streams::ReadFault;
use rp_base::NoMemory;

/// Why a run stops before its work is done. An input without a report is none of these: its line gives its own fault.
#[derive(Clone, Copy, Debug, PartialEq, Eq)]
pub enum Stop {
    /// No memory is left.
    NoMemory,

    /// The words are no command.
    Words,

    /// The input failed.
    Read,

    /// The output failed.
    Write,
}

impl Stop {
    /// The status that the program ends with.
    pub fn status(self) -> u8
        ensures { result ≡ status_of self }
    {
        match self {
            Stop::NoMemory => 1,
            Stop::Words => 2,
            Stop::Read => 3,
            Stop::Write => 4,
        }
    }

    /// The line that says so, empty where none is written.
    pub fn line(self) -> &'static [u8]
        ensures { result.now ≡ line_of self }
    {
        match self {
            Stop::NoMemory | Stop::Write => b"",
            Stop::Words => b"stop 2 words\n",
            Stop::Read => b"stop 3 read\n",
        }
    }
}

impl From<ReadFault> for Stop {
    ghost from_gives = { λ fault stop. stop ≡ stop_of fault };

    fn from(fault: ReadFault) -> Stop {
        match fault {
            ReadFault::NoMemory => Stop::NoMemory,
            ReadFault::Failed => Stop::Read,
        }
    }
}

impl From<NoMemory> for Stop {
    ghost from_gives = { λ _ stop. stop ≡ stops.NoMemory };

    fn from(_: NoMemory) -> Stop {
        Stop::NoMemory
    }
}
