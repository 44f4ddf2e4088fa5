//! A line with a proof.
ghost use Rattle.std.specs.Prelude.{◌≡◌, IfOk, option_map};
ghost use Rattle.std.specs.List.{list_any};
ghost use Rattle.std.specs.Option.{option_copied};
ghost use Rattle.text_defs.specs.Words.{is_upper_case};
ghost use Rattle.text_codec.specs.Views.{parts_left};
ghost use Rattle.chain_text_defs.specs.Chains as plain;
ghost use Rattle.chain_words.specs.Lines.{frame_behind, only_word};

use rp_base::NoMemory;
use std::alloc::Global;
use text_codec::Parts as Words;

/// The most bytes of a line: those of a line with a frame of 61,000 bytes.
pub const MOST_PROOF_LINE: usize = 122_006;

fn has_upper_case(word: &[u8]) -> bool
    ensures { result ≡ list_any is_upper_case word.now }
{
    word.iter().any(|c| c.is_ascii_uppercase())
}

// The bytes that the word spells, if it has some.
#[tactic(auto, unfolding(text_defs::specs::Words::bytes_of))]
fn frame_in(alloc: Global, word: &[u8]) -> Result<Option<Vec<u8>>, NoMemory>
    ensures { IfOk result (λ found. option_map (λ frame. frame.items) found ≡ plain.frame_in word.now) }
{
    if word.is_empty() || has_upper_case(word) {
        return Ok(None);
    }
    let mut frame = vec![in alloc; 0; word.len() / 2]?;
    match hex::decode_to_slice(word, &mut frame) {
        Ok(()) => Ok(Some(frame)),
        Err(_) => Ok(None),
    }
}

// The word that is left, where it is the only one.
fn last_word<'a>(mut words: Words<'a>) -> Option<&'a [u8]>
    ensures { option_copied result ≡ only_word (parts_left words.entry) }
{
    let word = words.next()?;
    if words.is_done() { Some(word) } else { None }
}

// The frame of the words after the first one.
fn frame_of_rest(alloc: Global, words: Words<'_>) -> Result<Option<Vec<u8>>, NoMemory>
    ensures { IfOk result (λ found. option_map (λ frame. frame.items) found ≡ frame_behind (parts_left words.entry)) }
{
    match last_word(words) {
        Some(word) => frame_in(alloc, word),
        None => Ok(None),
    }
}

// The frame of a line's words.
fn frame_by(alloc: Global, mut words: Words<'_>) -> Result<Option<Vec<u8>>, NoMemory>
    ensures { IfOk result (λ found. option_map (λ frame. frame.items) found ≡ plain.proof_by (parts_left words.entry)) }
{
    match words.next() {
        Some(word) if word == b"proof".as_slice() => frame_of_rest(alloc, words),
        _ => Ok(None),
    }
}

/// The frame of a proof line, which is given without its line feed; None exactly where the line is none.
///
/// # Errors
/// [`NoMemory`] where the room for the frame, of at most 61,000 bytes, is refused.
#[tactic(auto, unfolding(chain_text_defs::specs::Chains::proof_in))]
pub(crate) fn proof_in(alloc: Global, line: &[u8]) -> Result<Option<Vec<u8>>, NoMemory>
    ensures { IfOk result (λ found. option_map (λ frame. frame.items) found ≡ plain.proof_in line.now) }
{
    if line.len() > MOST_PROOF_LINE {
        return Ok(None);
    }
    frame_by(alloc, Words::words(line))
}
