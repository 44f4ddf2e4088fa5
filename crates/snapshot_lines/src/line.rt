//! The line of a snapshot.
ghost use Rattle.std.specs.Prelude.{◌≡◌, ◌/◌, ◌∷◌, [], IfOk, IfSome, length, option_map};
ghost use Rattle.std.specs.Result.{result_ok};
ghost use Rattle.byte_defs.specs.Choices.{and_then};
ghost use Rattle.text_defs.specs.Words.{bytes_of};
ghost use Rattle.text_codec.specs.Views.{parts_left};
ghost use Rattle.resume_laws.specs.Said as plain;
ghost use Rattle.snapshot_lines.specs.Views.{ArePartsOf, said_as};

use crate::bytes::{SnapSaid, said_by};
use crate::fault::ReadError;
use rp_base::{NoMemory, PidSet};
use std::alloc::Global;
use text_codec::{Parts as Words, WordFault, byte_list};

const MOST_LINE: usize = 16_777_221;

// What the bytes say; None exactly where they are no snapshot.
fn said_in(alloc: Global, hosted: PidSet, bytes: &[u8]) -> Result<Option<SnapSaid>, NoMemory>
    ensures read { IfOk result (λ r. option_map said_as r ≡ result_ok (plain.snapshot_in hosted bytes.now)) }
    ensures parts { IfOk result (λ r. IfSome r (λ said. ArePartsOf hosted (said_as said).parts)) }
{
    match said_by(alloc, hosted, bytes) {
        Ok(said) => Ok(Some(said)),
        Err(ReadError::Fault(_)) => Ok(None),
        Err(ReadError::NoMemory) => Err(NoMemory),
    }
}

// What the bytes say that this word spells.
fn said_word(alloc: Global, hosted: PidSet, word: &[u8]) -> Result<Option<SnapSaid>, NoMemory>
    ensures read { IfOk result (λ r. option_map said_as r
        ≡ and_then (bytes_of (length word.now / 2) word.now) (λ bytes. result_ok (plain.snapshot_in hosted bytes))) }
    ensures parts { IfOk result (λ r. IfSome r (λ said. ArePartsOf hosted (said_as said).parts)) }
{
    match byte_list(alloc, word) {
        Ok(bytes) => said_in(alloc, hosted, bytes.as_slice()),
        Err(WordFault::NoBytes) => Ok(None),
        Err(WordFault::NoMemory) => Err(NoMemory),
    }
}

// A word and one after it.
#[tactic(auto, unfolding(resume_laws::specs::Said::said_by_words))]
fn said_with(
    alloc: Global,
    hosted: PidSet,
    word: &[u8],
    arg: &[u8],
) -> Result<Option<SnapSaid>, NoMemory>
    ensures read { IfOk result (λ r. option_map said_as r ≡ plain.said_by_words hosted (word.now ∷ arg.now ∷ [])) }
    ensures parts { IfOk result (λ r. IfSome r (λ said. ArePartsOf hosted (said_as said).parts)) }
{
    if word == b"snap".as_slice() {
        said_word(alloc, hosted, arg)
    } else {
        Ok(None)
    }
}

// A word, one after it, and perhaps more.
#[tactic(auto, using(crate::proofs::Words::ended, crate::proofs::Words::longer))]
fn said_with_only(
    alloc: Global,
    hosted: PidSet,
    word: &[u8],
    arg: &[u8],
    words: Words<'_>,
) -> Result<Option<SnapSaid>, NoMemory>
    ensures read { IfOk result (λ r. option_map said_as r ≡ plain.said_by_words hosted (word.now ∷ arg.now ∷ parts_left words.entry)) }
    ensures parts { IfOk result (λ r. IfSome r (λ said. ArePartsOf hosted (said_as said).parts)) }
{
    if words.is_done() {
        said_with(alloc, hosted, word, arg)
    } else {
        Ok(None)
    }
}

// A word, and those after it.
#[tactic(auto, unfolding(resume_laws::specs::Said::said_by_words))]
fn said_from(
    alloc: Global,
    hosted: PidSet,
    word: &[u8],
    mut words: Words<'_>,
) -> Result<Option<SnapSaid>, NoMemory>
    ensures read { IfOk result (λ r. option_map said_as r ≡ plain.said_by_words hosted (word.now ∷ parts_left words.entry)) }
    ensures parts { IfOk result (λ r. IfSome r (λ said. ArePartsOf hosted (said_as said).parts)) }
{
    match words.next() {
        Some(arg) => said_with_only(alloc, hosted, word, arg, words),
        None => Ok(None),
    }
}

// The line's words.
#[tactic(auto, unfolding(resume_laws::specs::Said::said_by_words))]
fn said_words(
    alloc: Global,
    hosted: PidSet,
    mut words: Words<'_>,
) -> Result<Option<SnapSaid>, NoMemory>
    ensures read { IfOk result (λ r. option_map said_as r ≡ plain.said_by_words hosted (parts_left words.entry)) }
    ensures parts { IfOk result (λ r. IfSome r (λ said. ArePartsOf hosted (said_as said).parts)) }
{
    match words.next() {
        Some(word) => said_from(alloc, hosted, word, words),
        None => Ok(None),
    }
}

/// What the line of a snapshot, given without its line feed, says of these processes; None exactly where it is no such line: `snap` and the
/// bytes of a snapshot in hexadecimal, 16,777,221 bytes at most. The room that is taken is that of the bytes that are there, and never that
/// of a length that they claim.
///
/// # Errors
/// [`NoMemory`] where room is refused.
#[tactic(auto, unfolding(resume_laws::specs::Said::snap_said))]
pub fn read_snap(alloc: Global, hosted: PidSet, line: &[u8]) -> Result<Option<SnapSaid>, NoMemory>
    // What is read, or that there is nothing.
    ensures read { IfOk result (λ r. option_map said_as r ≡ plain.snap_said hosted line.now) }

    // There is a part for each of the processes, whose image can be written, in version 2.
    ensures parts { IfOk result (λ r. IfSome r (λ said. ArePartsOf hosted (said_as said).parts)) }
{
    if line.len() > MOST_LINE {
        return Ok(None);
    }
    said_words(alloc, hosted, Words::words(line))
}
