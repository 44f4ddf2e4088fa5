//! The payload whose answers are asked for.
ghost use Rattle.std.specs.Prelude.{◌≡◌, ℕ, List, [], ◌∷◌, map, string_bytes, IfOk, is_some};
ghost use Rattle.std.specs.List.{list_any};
ghost use Rattle.hex.specs.Hex.{encode_lower};
ghost use Rattle.text_defs.specs.Words.{is_upper_case, Spells};
ghost use Rattle.command_line.specs.Commands.{IsPayload};
ghost use Rattle.command_line.specs.Reading.{payload_of};

use rp_base::NoMemory;
use std::alloc::Global;
use text_codec::{WordFault, byte_list};

/// The most bytes of a payload.
const PAYLOAD_BYTES: usize = 1_024;

fn has_upper_case(word: &[u8]) -> bool
    ensures { result ≡ list_any is_upper_case word.now }
{
    word.iter().any(|c| c.is_ascii_uppercase())
}

/// Whether the word spells a payload: two lower-case hexadecimal digits for each of 1 to 1,024 bytes.
#[tactic(auto, unfolding(text_defs::specs::Words::bytes_of))]
pub(crate) fn is_payload(word: &[u8]) -> bool
    ensures { result ≡ is_some (payload_of word.now) }
{
    if word.len() < 2 || word.len() > 2 * PAYLOAD_BYTES || has_upper_case(word) {
        return false;
    }
    let mut bytes = [0; PAYLOAD_BYTES];
    hex::decode_to_slice(word, &mut bytes[..word.len() / 2]).is_ok()
}

// The bytes that the word spells. Of a word that spells none it says nothing.
fn spelled(alloc: Global, word: &[u8]) -> Result<Vec<u8>, NoMemory>
    ensures { (payload : List ℕ) → Spells word.now payload → IfOk result (λ found. found.items ≡ payload) }
{
    match byte_list(alloc, word) {
        Ok(found) => Ok(found),
        Err(WordFault::NoMemory) => Err(NoMemory),
        Err(WordFault::NoBytes) => Ok(Vec::new(alloc)),
    }
}

/// The payload that the first of these words spells. Of other words it says nothing.
///
/// # Errors
/// [`NoMemory`].
pub(crate) fn spelled_by(alloc: Global, words: &[String]) -> Result<Vec<u8>, NoMemory>
    ensures { (payload : List ℕ) → IsPayload payload → map string_bytes words.now ≡ encode_lower payload ∷ []
        → IfOk result (λ found. found.items ≡ payload) }
{
    match words.split_first() {
        Some((word, _)) => spelled(alloc, word.as_bytes()),
        None => Ok(Vec::new(alloc)),
    }
}
