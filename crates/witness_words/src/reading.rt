//! A line of evidence, as it is read.
ghost use Rattle.std.specs.Prelude.{◌≡◌, IfOk, option_map};
ghost use Rattle.std.specs.List.{list_any};
ghost use Rattle.std.specs.Option.{option_copied};
ghost use Rattle.text_defs.specs.Words.{is_upper_case};
ghost use Rattle.text_codec.specs.Views.{parts_left};
ghost use Rattle.chain_text_defs.specs.Chains as chains;
ghost use Rattle.witness_defs.specs.Lines as plain;
ghost use Rattle.witness_words.specs.Seen.{evidence, evidence_behind, two_words};

use rp_base::{NoMemory, Pid};
use std::alloc::Global;
use text_codec::{Parts as Words, process};

/// The most bytes of a line: those of a line with a frame of 61,000 bytes.
pub(crate) const MOST_EVIDENCE_LINE: usize = 122_012;

/// A process, and the bytes that are to convict it.
#[derive(Drop)]
pub(crate) struct Evidence {
    pub(crate) process: Pid,
    pub(crate) frame: Vec<u8>,
}

fn has_upper_case(word: &[u8]) -> bool
    ensures { result ≡ list_any is_upper_case word.now }
{
    word.iter().any(|c| c.is_ascii_uppercase())
}

// The bytes that the word spells, if it has some.
#[tactic(auto, unfolding(text_defs::specs::Words::bytes_of))]
fn frame_in(alloc: Global, word: &[u8]) -> Result<Option<Vec<u8>>, NoMemory>
    ensures { IfOk result (λ found. option_map (λ frame. frame.items) found ≡ chains.frame_in word.now) }
{
    if word.is_empty() || has_upper_case(word) {
        return Ok(None);
    }
    let mut frame = vec![in alloc; 0; word.len() / 2]?;
    match hex::decode_to_slice(word, &mut frame) {
        Ok(()) => Ok(Some(frame)),
        Err(_) => Ok(None),
    }
}

// The evidence of the words for a process and a frame.
fn evidence_of(alloc: Global, number: &[u8], frame: &[u8]) -> Result<Option<Evidence>, NoMemory>
    ensures { IfOk result (λ found. option_map evidence found ≡ evidence_behind number.now frame.now) }
{
    let Some(process) = process(number) else {
        return Ok(None);
    };
    match frame_in(alloc, frame)? {
        Some(frame) => Ok(Some(Evidence { process, frame })),
        None => Ok(None),
    }
}

// The words that are left, where they are two.
fn last_words<'a>(mut words: Words<'a>) -> Option<(&'a [u8], &'a [u8])>
    ensures { option_map (λ w. (w.0.now, w.1.now)) result ≡ two_words (parts_left words.entry) }
{
    let first = words.next()?;
    let second = words.next()?;
    if words.is_done() {
        Some((first, second))
    } else {
        None
    }
}

// The evidence of the words after the first one.
fn evidence_of_rest(alloc: Global, words: Words<'_>) -> Result<Option<Evidence>, NoMemory>
    ensures { IfOk result (λ found. option_map evidence found ≡ plain.evidence_of_rest (parts_left words.entry)) }
{
    match last_words(words) {
        Some((number, frame)) => evidence_of(alloc, number, frame),
        None => Ok(None),
    }
}

// The evidence of a line's words.
fn evidence_by(alloc: Global, mut words: Words<'_>) -> Result<Option<Evidence>, NoMemory>
    ensures { IfOk result (λ found. option_map evidence found ≡ plain.evidence_by (parts_left words.entry)) }
{
    match words.next() {
        Some(word) if word == b"evidence".as_slice() => evidence_of_rest(alloc, words),
        _ => Ok(None),
    }
}

/// The evidence of a line, which is given without its line feed; None exactly where the line is none of evidence.
///
/// # Errors
/// [`NoMemory`] where the room for the frame, of at most 61,000 bytes, is refused.
#[tactic(auto, unfolding(witness_defs::specs::Lines::evidence_in))]
pub(crate) fn evidence_in(alloc: Global, line: &[u8]) -> Result<Option<Evidence>, NoMemory>
    ensures { IfOk result (λ found. option_map evidence found ≡ plain.evidence_in line.now) }
{
    if line.len() > MOST_EVIDENCE_LINE {
        return Ok(None);
    }
    evidence_by(alloc, Words::words(line))
}
