//! What the words after the program's name ask for.
#![tactic(auto)]

ghost use Rattle.command_line.specs.Laws.{CommandIsSpelled};

mod commands;
mod listed;
mod orders;
mod payloads;

pub use commands::{Command, listed_in, payload_in, read_command};
pub use listed::read_listed;
pub use orders::KitOrder;

/// The command that is read of words is the one whose words they are, in its ranges, and no other words give it.
pub fn command_is_spelled()
    ensures { CommandIsSpelled }
{}
