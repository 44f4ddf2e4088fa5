//! Bytes as two lower-case hexadecimal digits each, the high four bits first.
ghost use Rattle.std.specs.Prelude.{◌≡◌, ◌≢◌, ◌<◌, ◌+◌, ◌*◌, ◌++◌, ℕ, List, length, IfOk, IsErrOf, Ok, OnOk, OnErr, vec_capacity, vec_len};
ghost use Rattle.std.specs.List.{list_any};
ghost use Rattle.hex.specs.Hex.{decode_of, encode_lower};
ghost use Rattle.text_defs.specs.Words.{is_upper_case, bytes_of, bytes_word, Spells};

use hex::FromHexError;
use rp_base::NoMemory;
use std::alloc::Global;

/// Why a word gives no bytes.
#[derive(Clone, Copy, Debug, PartialEq, Eq)]
pub enum WordFault {
    /// The word spells none: its writer is to blame.
    NoBytes,

    /// Memory ran out, which is nobody's fault.
    NoMemory,
}

fn has_upper_case(word: &[u8]) -> bool
    ensures { result ≡ list_any is_upper_case word.now }
{
    word.iter().any(|c| c.is_ascii_uppercase())
}

/// The bytes that the word spells; None exactly where it isn't two lower-case hexadecimal digits for each of N bytes.
#[tactic(auto, unfolding(text_defs::specs::Words::bytes_of))]
pub fn bytes<const N: usize>(word: &[u8]) -> Option<[u8; N]>
    ensures { result ≡ bytes_of N word.now }
{
    if has_upper_case(word) {
        return None;
    }
    let mut out = [0; N];
    hex::decode_to_slice(word, &mut out).ok()?;
    Some(out)
}

/// Appends bytes in lower-case hexadecimal digits.
///
/// # Errors
/// [`NoMemory`] only where the room that there was is too small; nothing is appended then.
pub fn push_hex(out: &mut Vec<u8>, bytes: &[u8]) -> Result<(), NoMemory>
    ensures pushed { OnOk result (out.new.items ≡ out.old.items ++ encode_lower bytes.now) }
    ensures unchanged { OnErr result (out.new.items ≡ out.old.items) }
    ensures full { OnErr result (vec_capacity out.old < vec_len out.old + 2 * length bytes.now) }
{
    let start = out.len();
    let end = start.checked_add(2 * bytes.len()).ok_or(NoMemory)?;
    out.resize(end, 0)?;
    let Ok(()) = hex::encode_to_slice(bytes, &mut out[start..]) else {
        unreachable!();
    };
    Ok(())
}

// The bytes that hexadecimal digits of either case spell.
fn decode(alloc: Global, word: &[u8]) -> Result<Vec<u8>, WordFault>
    ensures read { IfOk result (λ found. decode_of word.now ≡ Ok found.items) }
    ensures none { IsErrOf result WordFault.NoBytes → (found : List ℕ) → decode_of word.now ≢ Ok found }
{
    match hex::decode(alloc, word) {
        Ok(found) => Ok(found),
        Err(FromHexError::OutOfMemory) => Err(WordFault::NoMemory),
        Err(_) => Err(WordFault::NoBytes),
    }
}

/// The bytes that the word spells, of any number: two lower-case hexadecimal digits for each, or `-` where there are none.
///
/// # Errors
/// [`WordFault::NoBytes`] exactly where memory lasts and the word spells none; [`WordFault::NoMemory`] where the room for
/// them is refused.
pub fn byte_list(alloc: Global, word: &[u8]) -> Result<Vec<u8>, WordFault>
    ensures read { IfOk result (λ found. Spells word.now found.items) }
    ensures none { IsErrOf result WordFault.NoBytes → (found : List ℕ) → ¬ Spells word.now found }
{
    if word == b"-".as_slice() {
        return Ok(Vec::new(alloc));
    }
    if word.is_empty() || has_upper_case(word) {
        return Err(WordFault::NoBytes);
    }
    decode(alloc, word)
}

/// Appends bytes of any number as the word that [`byte_list`] reads.
///
/// # Errors
/// [`NoMemory`] only where the room that there was is too small.
pub fn push_byte_list(out: &mut Vec<u8>, bytes: &[u8]) -> Result<(), NoMemory>
    ensures { OnOk result (out.new.items ≡ out.old.items ++ bytes_word bytes.now) }
{
    if bytes.is_empty() {
        out.push(b'-')?;
        return Ok(());
    }
    push_hex(out, bytes)
}
