//! Words of a line: how many there are, and the numbers and bytes that they spell.
ghost use Rattle.std.specs.Prelude.{◌≡◌, ◌≤◌, ◌+◌, ◌-◌, ◌*◌, ◌^◌, IfOk, IfSome, MatchOption, length, option_map};
ghost use Rattle.std.specs.Option.{option_copied};
ghost use Rattle.std.specs.Fmt.{decimal};
ghost use Rattle.byte_defs.specs.Equality.{same_bytes};
ghost use Rattle.text_codec.specs.Views.{parts_left};
ghost use Rattle.text_defs.specs.Words.{number_within, value_behind};
ghost use Rattle.story_defs.specs.Words as stories;
ghost use Rattle.store_text_defs.specs.Requests as requests;
ghost use Rattle.store_text_defs.specs.Requests.{last_tag};

use itoa::Buffer;
use rp_base::NoMemory;
use std::alloc::Global;
use text_codec::{Parts as Words, WordFault, byte_list};

// ---- how many there are

/// The word that is left, where it is the only one.
pub fn only<'a>(mut words: Words<'a>) -> Option<&'a [u8]>
    ensures { option_copied result ≡ requests.only (parts_left words.entry) }
{
    let word = words.next()?;
    if words.is_done() { Some(word) } else { None }
}

/// The words that are left, where they are two.
pub fn both<'a>(mut words: Words<'a>) -> Option<(&'a [u8], &'a [u8])>
    ensures { option_map (λ w. (w.0.now, w.1.now)) result ≡ requests.both (parts_left words.entry) }
{
    let first = words.next()?;
    let second = only(words)?;
    Some((first, second))
}

// ---- what they spell

/// The bytes that the word spells, any number of them; None exactly where it spells none.
///
/// # Errors
/// [`NoMemory`] where room for them is refused.
pub fn hex_word(alloc: Global, word: &[u8]) -> Result<Option<Vec<u8>>, NoMemory>
    ensures { IfOk result (λ found. option_map (λ bytes. bytes.items) found ≡ stories.hex_word word.now) }
{
    match byte_list(alloc, word) {
        Ok(found) => Ok(Some(found)),
        Err(WordFault::NoBytes) => Ok(None),
        Err(WordFault::NoMemory) => Err(NoMemory),
    }
}

/// At most `most` bytes.
///
/// # Errors
/// [`NoMemory`] where room for them is refused.
pub(crate) fn payload_of(
    alloc: Global,
    word: &[u8],
    most: usize,
) -> Result<Option<Vec<u8>>, NoMemory>
    ensures read { IfOk result (λ found. option_map (λ bytes. bytes.items) found ≡ stories.payload_of most word.now) }
    ensures short { IfOk result (λ found. IfSome found (λ bytes. length bytes.items ≤ most)) }
{
    let Some(found) = hex_word(alloc, word)? else {
        return Ok(None);
    };
    if found.len() > most {
        return Ok(None);
    }
    Ok(Some(found))
}

// One digit more after a number; None exactly where it has more than 64 bits then. A byte that is no digit counts for some number.
fn one_more(n: u64, digit: u8) -> Option<u64>
    ensures { MatchOption result (2 ^ 64 ≤ 10 * n + (digit - 48)) (λ m. m ≡ 10 * n + (digit - 48)) }
{
    n.checked_mul(10)?
        .checked_add(u64::from(digit.saturating_sub(b'0')))
}

// The value of decimal digits; None exactly where it has more than 64 bits.
fn value(word: &[u8]) -> Option<u64>
    ensures { MatchOption result (2 ^ 64 ≤ value_behind 0 word.now) (λ n. n ≡ value_behind 0 word.now) }
{
    let mut n = 0u64;
    'digits: for digit in word {
        n = one_more(n, *digit)?;
    }
    Some(n)
}

fn is_spelling(word: &[u8], n: u64) -> bool
    ensures { result ≡ same_bytes (decimal n) word.now }
{
    Buffer::new().format(n).as_bytes() == word
}

/// The tag that the word spells: a number below 2^64. None exactly where it spells none.
#[tactic(auto, using(crate::proofs::Tags::tag_found, crate::proofs::Tags::tag_other, crate::proofs::Tags::tag_none))]
pub(crate) fn tag(word: &[u8]) -> Option<u64>
    ensures { result ≡ number_within 0 last_tag word.now }
{
    let n = value(word)?;
    if is_spelling(word, n) { Some(n) } else { None }
}
