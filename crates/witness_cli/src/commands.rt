//! What the words after the program's name ask for.
ghost use Rattle.std.specs.Prelude.{◌≡◌, ℕ, List, Some, IfSome, map, option_map, string_bytes};
ghost use Rattle.witness_cli.specs.Commands as plain;
ghost use Rattle.witness_cli.specs.Commands.{Asks, command, command_of as command_by};

use command_line::{command_is_spelled, read_listed};
use rp_base::{Pid, PidSet};
use text_codec::process;

/// What the words ask for.
#[derive(Clone, Copy)]
pub(crate) enum Command {
    /// Evidence against whom journals convict, with these processes taken as correct.
    Convict(PidSet),

    /// Proofs of the views that this process left, of its journal.
    Proofs(Pid),

    /// A verdict on evidence.
    Judge,

    /// The views that proofs show, from any view on.
    Chain,
}

// The process of a word, where it is the only one.
fn one_process(words: &[String]) -> Option<Pid>
    ensures { result ≡ plain.one_process (map string_bytes words.now) }
{
    match words {
        [] => None,
        [word] => process(word.as_bytes()),
        [_, _, ..] => None,
    }
}

// The command of a word that has none behind it.
fn alone(word: &[u8]) -> Option<Command>
    ensures { option_map command result ≡ plain.alone_of word.now }
{
    if word == b"judge".as_slice() {
        Some(Command::Judge)
    } else if word == b"chain".as_slice() {
        Some(Command::Chain)
    } else {
        None
    }
}

fn of_words(words: &[String]) -> Option<Command>
    ensures { option_map command result ≡ command_by (map string_bytes words.now) }
{
    let Some((word, further)) = words.split_first() else {
        return None;
    };
    if word.as_bytes() == b"convict".as_slice() {
        Some(Command::Convict(read_listed(further)?))
    } else if word.as_bytes() == b"proofs".as_slice() {
        Some(Command::Proofs(one_process(further)?))
    } else if further.is_empty() {
        alone(word.as_bytes())
    } else {
        None
    }
}

/// The command that the words ask for; None exactly where they ask for none.
pub(crate) fn command_of(words: &[String]) -> Option<Command>
    ensures found { IfSome result (λ c. Asks words.now (command c)) }
    ensures only { (c : plain.Command) → Asks words.now c → option_map command result ≡ Some c }
{
    command_is_spelled();
    of_words(words)
}
