ghost use Rattle.std.specs.Prelude.{◌≡◌, ℕ, List, [], ◌∷◌, map, string_bytes, option_map, Some, IfOk, IfSome};
ghost use Rattle.command_line.specs.Commands.{Asks};
ghost use Rattle.command_line.specs.Commands as plain;
ghost use Rattle.command_line.specs.Reading.{command_of, hosting_of, other_of, payload_of};
ghost use Rattle.command_line.specs.Views as views;

use crate::listed::read_listed;
use crate::orders::{KitOrder, read_order};
use crate::payloads::{is_payload, spelled_by};
use rp_base::{NoMemory, PidSet};
use std::alloc::Global;
use text_codec::number;

/// What the program is to do. Its `Debug` does not show the seed of an order.
#[derive(Clone, Copy, Debug, PartialEq, Eq)]
pub enum Command<'a> {
    /// Read a schedule, and write its report: the whole one, or the short one.
    Replay { short: bool },

    /// Read a kit and proofs, and write each view that they show.
    Chain,

    /// Write the schedule that this number makes.
    Gen(u32),

    /// Write a new kit.
    Keygen(KitOrder),

    /// Read a kit and a script, and run a node whose journal is the file of this name.
    Node(&'a str),

    /// Read a kit, a snapshot and a script, and run a node that begins by the snapshot, whose journal is the file of this name.
    Resume(&'a str),

    /// Read a kit and a script, and run a node that is a guard, whose journal is the file of this name.
    Guard(&'a str),

    /// Read a kit and a script, and run a node that serves a store, whose journal is the file of this name.
    Serve(&'a str),

    /// Read a kit, reply keys, a view and replies, and write what enough members of the view answered to the payload that this word spells.
    Ask(&'a str),

    /// Read a kit and journals, and write what these say of the processes, which are taken as correct.
    Audit(PidSet),
}

fn of_one_word(word: &[u8]) -> Option<Command<'_>>
    ensures { option_map views.command result ≡ other_of (word.now ∷ []) }
{
    if word == b"replay".as_slice() {
        Some(Command::Replay { short: false })
    } else if word == b"chain".as_slice() {
        Some(Command::Chain)
    } else {
        None
    }
}

#[tactic(auto, using(crate::proofs::PayloadWords::is_asked, crate::proofs::PayloadWords::none_asked))]
fn of_payload(word: &str) -> Option<Command<'_>>
    ensures { option_map views.command result ≡ option_map plain.Ask (payload_of word.now) }
{
    if is_payload(word.as_bytes()) {
        Some(Command::Ask(word))
    } else {
        None
    }
}

fn of_file<'a>(word: &[u8], file: &'a str) -> Option<Command<'a>>
    ensures { option_map views.command result ≡ hosting_of word.now file.now }
{
    if word == b"node".as_slice() {
        Some(Command::Node(file))
    } else if word == b"resume".as_slice() {
        Some(Command::Resume(file))
    } else if word == b"guard".as_slice() {
        Some(Command::Guard(file))
    } else if word == b"serve".as_slice() {
        Some(Command::Serve(file))
    } else {
        None
    }
}

fn of_two_words<'a>(word: &[u8], further: &'a str) -> Option<Command<'a>>
    ensures { option_map views.command result ≡ other_of (word.now ∷ further.now ∷ []) }
{
    if word == b"gen".as_slice() {
        Some(Command::Gen(number(further.as_bytes(), 0, u32::MAX)?))
    } else if word == b"ask".as_slice() {
        of_payload(further)
    } else if word == b"replay".as_slice() && further == "short" {
        Some(Command::Replay { short: true })
    } else {
        of_file(word, further)
    }
}

fn of_five_words<'a>(
    word: &[u8],
    members: &[u8],
    roster: &[u8],
    keys: &[u8],
    seed: &[u8],
) -> Option<Command<'a>>
    ensures { option_map views.command result ≡ other_of (word.now ∷ members.now ∷ roster.now ∷ keys.now ∷ seed.now ∷ []) }
{
    if word == b"keygen".as_slice() {
        Some(Command::Keygen(read_order(members, roster, keys, seed)?))
    } else {
        None
    }
}

// Each number of words up to five has an arm: where two join, what is known of the number is lost.
fn of_other_words(words: &[String]) -> Option<Command<'_>>
    ensures { option_map views.command result ≡ other_of (map string_bytes words.now) }
{
    match words {
        [] => None,
        [word] => of_one_word(word.as_bytes()),
        [word, further] => of_two_words(word.as_bytes(), further.as_str()),
        [_, _, _] => None,
        [_, _, _, _] => None,
        [word, members, roster, keys, seed] => of_five_words(
            word.as_bytes(),
            members.as_bytes(),
            roster.as_bytes(),
            keys.as_bytes(),
            seed.as_bytes(),
        ),
        _ => None,
    }
}

fn of_words(words: &[String]) -> Option<Command<'_>>
    ensures { option_map views.command result ≡ command_of (map string_bytes words.now) }
{
    let Some((word, further)) = words.split_first() else {
        return None;
    };
    if word.as_bytes() == b"audit".as_slice() {
        Some(Command::Audit(read_listed(further)?))
    } else {
        of_other_words(words)
    }
}

/// The command that the words ask for; None exactly where they ask for none. The words are those after the program's
/// name: `replay`, `replay short`, `chain`, `gen NUMBER` with a number of 32 bits, `keygen N R KEYS SEED` with the ranges of
/// [`KitOrder`], `node FILE`, `resume FILE`, `guard FILE` or `serve FILE` with any word, `ask HEX` with 1 to 1,024 bytes in lower-case
/// hexadecimal, or `audit P P ..` with 1 to 64 rising numbers up to 63.
pub fn read_command(words: &[String]) -> Option<Command<'_>>
    // The words are those of the command that is read, and it is in its ranges.
    ensures found { IfSome result (λ c. Asks (map string_bytes words.now) (views.command c)) }

    // A command in its ranges is read of its words.
    ensures only { (c : plain.Command) → Asks (map string_bytes words.now) c → option_map views.command result ≡ Some c }

    // The same, word by word.
    ensures exact { option_map views.command result ≡ command_of (map string_bytes words.now) }
{
    of_words(words)
}

// These processes, or none.
fn or_none(listed: &Option<PidSet>) -> PidSet
    ensures { IfSome listed.now (λ processes. result ≡ processes) }
{
    match listed {
        Some(processes) => *processes,
        None => PidSet::new(),
    }
}

/// The processes that the words list after `audit`, where they ask for an audit. Of other words it says nothing.
pub fn listed_in(words: &[String]) -> PidSet
    ensures audit { (listed : List ℕ) → Asks (map string_bytes words.now) (plain.Audit listed) → result ≡ listed }
{
    match words.split_first() {
        Some((_, processes)) => or_none(&read_listed(processes)),
        None => PidSet::new(),
    }
}

/// The payload that the word after `ask` spells, where the words ask for what was answered to it. Of other words it says nothing.
///
/// # Errors
/// [`NoMemory`].
pub fn payload_in(alloc: Global, words: &[String]) -> Result<Vec<u8>, NoMemory>
    ensures ask { (payload : List ℕ) → Asks (map string_bytes words.now) (plain.Ask payload) → IfOk result (λ found. found.items ≡ payload) }
{
    match words.split_first() {
        Some((_, further)) => spelled_by(alloc, further),
        None => Ok(Vec::new(alloc)),
    }
}
