//! Why a run stops, and the line that says which line is faulty.
ghost use Rattle.std.specs.Prelude.{◌≡◌, IfOk};
ghost use Rattle.store_cli.specs.Messages as reported;
ghost use Rattle.store_cli.specs.Messages.{of_input};
ghost use Rattle.store_cli.specs.declared.stops.Stop.TheVariants as stops;

use line_input::InputFault;
use rp_base::{Failed, NoMemory};
use std::alloc::Global;
use text_codec::push_number;

/// Why a run stops before its work is done.
#[derive(Clone, Copy)]
pub(crate) enum Stop {
    /// No memory is left, or no number of a line.
    NoMemory,

    /// The input failed.
    Read,

    /// The output failed.
    Write,

    /// The line of this number, counted from 1, is the first faulty one.
    Faulty(u64),
}

/// The line that says that the line of this number is the first faulty one.
pub(crate) fn fault_line(alloc: Global, number: u64) -> Result<Vec<u8>, NoMemory>
    ensures { IfOk result (λ line. line.items ≡ reported.fault_line number) }
{
    let mut line = b"stop 7 line ".to_vec(alloc)?;
    push_number(&mut line, number)?;
    line.push(b'\n')?;
    Ok(line)
}

impl From<NoMemory> for Stop {
    ghost from_gives = { λ _ stop. stop ≡ stops.NoMemory };

    fn from(_refused: NoMemory) -> Stop {
        Stop::NoMemory
    }
}

impl From<Failed> for Stop {
    ghost from_gives = { λ _ stop. stop ≡ stops.Write };

    fn from(_: Failed) -> Stop {
        Stop::Write
    }
}

impl From<InputFault> for Stop {
    ghost from_gives = { λ fault stop. stop ≡ of_input fault };

    fn from(fault: InputFault) -> Stop {
        match fault {
            InputFault::Read => Stop::Read,
            InputFault::NoMemory => Stop::NoMemory,
        }
    }
}
