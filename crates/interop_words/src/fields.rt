ghost use Rattle.std.specs.Prelude.{◌≡◌, ◌≢◌, ℕ, ◌≤◌, List, map, IfOk, IsErrOf};
ghost use Rattle.std.specs.Fmt.{decimal};
ghost use Rattle.hex.specs.Hex.{encode_lower};
ghost use Rattle.text_defs.specs.Words as plain;
ghost use Rattle.text_defs.specs.Words.{AreBytes, Spells};

use crate::line_fault::LineFault;
use std::alloc::{AllocError, Global};
use text_codec::{Parts, WordFault, byte_list, bytes, number};

/// The words of a line: what is between its spaces.
pub fn words_of(alloc: Global, line: &[u8]) -> Result<Vec<&[u8]>, AllocError>
    ensures { IfOk result (λ found. map (λ word. word.now) found.items ≡ plain.words_of line.now) }
{
    Parts::words(line).collect(alloc)
}

/// The number from the least to the most that a word spells. `NoQuestion` comes exactly where it spells none of them.
pub fn read_number(word: &[u8], least: u32, most: u32) -> Result<u32, LineFault>
    ensures read { IfOk result (λ n. (word.now ≡ decimal n) × (least ≤ n) × (n ≤ most)) }
    ensures none { IsErrOf result LineFault.NoQuestion → (n : ℕ) → least ≤ n → n ≤ most → word.now ≢ decimal n }
{
    number(word, least, most).ok_or(LineFault::NoQuestion)
}

/// The N bytes whose hexadecimal digits the word is. `NoQuestion` comes exactly where it spells no bytes or another
/// number of them.
pub fn read_array<const N: usize>(word: &[u8]) -> Result<[u8; N], LineFault>
    ensures read { IfOk result (λ found. AreBytes N found × (word.now ≡ encode_lower found)) }
    ensures none { IsErrOf result LineFault.NoQuestion → (found : List ℕ) → AreBytes N found → word.now ≢ encode_lower found }
{
    bytes(word).ok_or(LineFault::NoQuestion)
}

/// The bytes that a word spells. `NoQuestion` comes exactly where it spells none.
pub fn read_bytes(alloc: Global, word: &[u8]) -> Result<Vec<u8>, LineFault>
    ensures read { IfOk result (λ found. Spells word.now found.items) }
    ensures none { IsErrOf result LineFault.NoQuestion → (found : List ℕ) → ¬ Spells word.now found }
{
    match byte_list(alloc, word) {
        Ok(found) => Ok(found),
        Err(WordFault::NoBytes) => Err(LineFault::NoQuestion),
        Err(WordFault::NoMemory) => Err(LineFault::NoMemory),
    }
}
