//! A line of a node's script.
ghost use Rattle.std.specs.Prelude.{◌≡◌, ◌∷◌, [], length, nat_le, None, IfOk, option_map, if◌then◌else◌};
ghost use Rattle.std.specs.Option.{option_or};
ghost use Rattle.byte_defs.specs.Choices.{and_then};
ghost use Rattle.text_defs.specs.Words.{number_within, process_of};
ghost use Rattle.journal_defs.specs.Entries.{Submit, Suspect, Join};
ghost use Rattle.text_codec.specs.Views.{parts_left};
ghost use Rattle.node_defs.specs.Scripts as plain;
ghost use Rattle.node_text.specs.Views.{line as line_of, said as said_of};

use crate::handed::Handed;
use rp_base::{NoMemory, Pid, PidSet};
use std::alloc::Global;
use text_codec::{Parts as Words, WordFault, byte_list, number, process};

/// The most bytes of a line in the node's own words.
const OWN_LINE_BYTES: usize = 70_000;

/// The most datagrams of a `recv` line.
const MOST_RECEIVED: u32 = 1_000;

/// What a line asks of its process.
#[derive(Drop)]
pub enum Said {
    /// It is handed an event.
    Hand(Handed),

    /// It receives at most this many datagrams, 1 to 1,000.
    Receive(u32),

    /// The line is not in the node's own words, and is UTF-8: its service is asked.
    Other,
}

/// What a line of a script asks for.
#[derive(Drop)]
pub enum Line {
    /// Something of a hosted process.
    Of { process: Pid, said: Said },

    /// A snapshot.
    Snap,
}

// A word alone.
#[tactic(auto, unfolding(node_defs::specs::Scripts::said_by))]
fn said_alone(word: &[u8]) -> Option<Said>
    ensures { option_map said_of result ≡ plain.said_by (word.now ∷ []) }
{
    if word == b"renew".as_slice() {
        Some(Said::Hand(Handed::Renew))
    } else if word == b"tick".as_slice() {
        Some(Said::Hand(Handed::Tick))
    } else {
        None
    }
}

fn said_submit(alloc: Global, word: &[u8]) -> Result<Option<Said>, NoMemory>
    ensures { IfOk result (λ said. option_map said_of said ≡ option_map (λ payload. plain.Hand (Submit payload)) (plain.payload_of word.now)) }
{
    match byte_list(alloc, word) {
        Ok(payload) => Ok(Some(Said::Hand(Handed::Submit(payload)))),
        Err(WordFault::NoBytes) => Ok(None),
        Err(WordFault::NoMemory) => Err(NoMemory),
    }
}

fn said_suspect(word: &[u8]) -> Option<Said>
    ensures { option_map said_of result ≡ option_map (λ q. plain.Hand (Suspect q)) (process_of word.now) }
{
    let q = process(word)?;
    Some(Said::Hand(Handed::Suspect(q)))
}

fn said_join(word: &[u8]) -> Option<Said>
    ensures { option_map said_of result ≡ option_map (λ q. plain.Hand (Join q)) (process_of word.now) }
{
    let q = process(word)?;
    Some(Said::Hand(Handed::Join(q)))
}

fn said_recv(word: &[u8]) -> Option<Said>
    ensures { option_map said_of result ≡ option_map plain.Receive (number_within 1 1000 word.now) }
{
    let most = number(word, 1, MOST_RECEIVED)?;
    Some(Said::Receive(most))
}

// A word and one after it.
#[tactic(auto, unfolding(node_defs::specs::Scripts::said_by))]
fn said_with(alloc: Global, word: &[u8], arg: &[u8]) -> Result<Option<Said>, NoMemory>
    ensures { IfOk result (λ said. option_map said_of said ≡ plain.said_by (word.now ∷ arg.now ∷ [])) }
{
    if word == b"submit".as_slice() {
        said_submit(alloc, arg)
    } else if word == b"suspect".as_slice() {
        Ok(said_suspect(arg))
    } else if word == b"join".as_slice() {
        Ok(said_join(arg))
    } else if word == b"recv".as_slice() {
        Ok(said_recv(arg))
    } else {
        Ok(None)
    }
}

// A word, one after it, and perhaps more.
#[tactic(auto, using(crate::proofs::Scripts::ended, crate::proofs::Scripts::longer))]
fn said_with_only(
    alloc: Global,
    word: &[u8],
    arg: &[u8],
    words: Words<'_>,
) -> Result<Option<Said>, NoMemory>
    ensures { IfOk result (λ said. option_map said_of said ≡ plain.said_by (word.now ∷ arg.now ∷ parts_left words.entry)) }
{
    if words.is_done() {
        said_with(alloc, word, arg)
    } else {
        Ok(None)
    }
}

// A word, and those after it.
fn said_behind(alloc: Global, word: &[u8], mut words: Words<'_>) -> Result<Option<Said>, NoMemory>
    ensures { IfOk result (λ said. option_map said_of said ≡ plain.said_by (word.now ∷ parts_left words.entry)) }
{
    match words.next() {
        Some(arg) => said_with_only(alloc, word, arg, words),
        None => Ok(said_alone(word)),
    }
}

// What the words after the process say, in the node's own words.
#[tactic(auto, unfolding(node_defs::specs::Scripts::said_by))]
fn said_by(alloc: Global, mut words: Words<'_>) -> Result<Option<Said>, NoMemory>
    ensures { IfOk result (λ said. option_map said_of said ≡ plain.said_by (parts_left words.entry)) }
{
    match words.next() {
        Some(word) => said_behind(alloc, word, words),
        None => Ok(None),
    }
}

// In the node's own words, where the line is short enough for them.
fn said_within(alloc: Global, line: &[u8], words: Words<'_>) -> Result<Option<Said>, NoMemory>
    ensures { IfOk result (λ said. option_map said_of said
        ≡ (if nat_le (length line.now) plain.most_own_bytes then plain.said_by (parts_left words.entry) else None)) }
{
    if line.len() <= OWN_LINE_BYTES {
        said_by(alloc, words)
    } else {
        Ok(None)
    }
}

// For the service.
fn said_other(line: &[u8]) -> Option<Said>
    ensures { option_map said_of result ≡ plain.other_said line.now }
{
    match std::str::from_utf8(line) {
        Ok(_) => Some(Said::Other),
        Err(_) => None,
    }
}

fn own_or_other(own: Option<Said>, line: &[u8]) -> Option<Said>
    ensures { option_map said_of result ≡ option_or (option_map said_of own) (plain.other_said line.now) }
{
    match own {
        Some(said) => Some(said),
        None => said_other(line),
    }
}

// What the line says, of which these are the words after the process.
fn said_or_other(alloc: Global, line: &[u8], words: Words<'_>) -> Result<Option<Said>, NoMemory>
    ensures { IfOk result (λ said. option_map said_of said ≡ plain.said_or_other line.now (parts_left words.entry)) }
{
    let own = said_within(alloc, line, words)?;
    Ok(own_or_other(own, line))
}

fn line_for(process: Pid, said: Option<Said>) -> Option<Line>
    ensures { option_map line_of result ≡ option_map (plain.Of process) (option_map said_of said) }
{
    let said = said?;
    Some(Line::Of { process, said })
}

// The line of this process, where it is hosted.
fn line_if_hosted(
    alloc: Global,
    hosted: PidSet,
    line: &[u8],
    words: Words<'_>,
    process: Pid,
) -> Result<Option<Line>, NoMemory>
    ensures { IfOk result (λ said. option_map line_of said ≡ plain.line_if_hosted hosted line.now (parts_left words.entry) process) }
{
    if !hosted.contains(process) {
        return Ok(None);
    }
    let said = said_or_other(alloc, line, words)?;
    Ok(line_for(process, said))
}

// The line of the process that the first word names.
fn line_named(
    alloc: Global,
    hosted: PidSet,
    line: &[u8],
    first: &[u8],
    words: Words<'_>,
) -> Result<Option<Line>, NoMemory>
    ensures { IfOk result (λ said. option_map line_of said
        ≡ and_then (process_of first.now) (plain.line_if_hosted hosted line.now (parts_left words.entry))) }
{
    match process(first) {
        Some(p) => line_if_hosted(alloc, hosted, line, words, p),
        None => Ok(None),
    }
}

// The line of these words.
fn line_by(
    alloc: Global,
    hosted: PidSet,
    line: &[u8],
    mut words: Words<'_>,
) -> Result<Option<Line>, NoMemory>
    ensures { IfOk result (λ said. option_map line_of said ≡ plain.line_of_words hosted line.now (parts_left words.entry)) }
{
    match words.next() {
        Some(first) => line_named(alloc, hosted, line, first, words),
        None => Ok(None),
    }
}

/// What a line of the script asks for, given without its line feed; None exactly where the script has no such line. It is `snap`; or the number
/// of a hosted process, and after it words of the node's own, or anything else that is UTF-8, which is for the node's service
/// (docs/FORMATS.md, «Nodes»).
///
/// # Errors
/// [`NoMemory`] where the room for a payload is refused.
#[tactic(auto, unfolding(node_defs::specs::Scripts::line_said))]
pub fn read_line(alloc: Global, hosted: PidSet, line: &[u8]) -> Result<Option<Line>, NoMemory>
    ensures { IfOk result (λ said. option_map line_of said ≡ plain.line_said hosted line.now) }
{
    if line == b"snap".as_slice() {
        return Ok(Some(Line::Snap));
    }
    line_by(alloc, hosted, line, Words::words(line))
}
