//! Numbers in decimal digits, without sign or leading zero.
ghost use Rattle.std.specs.Prelude.{◌&&◌, nat_le, ◌≡◌, ◌<◌, ◌≤◌, ◌+◌, ◌++◌, length, IfSome, OnOk, OnErr, vec_capacity, vec_len};
ghost use Rattle.std.specs.Fmt.{decimal};
ghost use Rattle.byte_defs.specs.Equality.{same_bytes};
ghost use Rattle.text_defs.specs.Words.{value_behind, number_within, process_of};

use itoa::Buffer;
use rp_base::{NoMemory, Pid};

/// The most digits of a number below 2^32.
const MOST_DIGITS: usize = 10;

// The value of decimal digits; a byte that is no digit counts for some number up to 207.
fn value(word: &[u8]) -> u64
    requires { length word.now ≤ MOST_DIGITS }
    ensures { result ≡ value_behind 0 word.now }
{
    let mut n = 0;
    for digit in word {
        n = 10 * n + u64::from(digit.saturating_sub(b'0'));
    }
    n
}

// Whether the number lies between the bounds, and the word is its spelling.
fn spells(word: &[u8], n: u64, least: u32, most: u32) -> bool
    ensures { result ≡ (nat_le least n && nat_le n most && same_bytes (decimal n) word.now) }
{
    u64::from(least) <= n && n <= u64::from(most) && Buffer::new().format(n).as_bytes() == word
}

/// The number from the least to the most that the word spells; None exactly where it spells none of them.
pub fn number(word: &[u8], least: u32, most: u32) -> Option<u32>
    ensures value { result ≡ number_within least most word.now }
    ensures within { IfSome result (λ n. (least ≤ n) × (n ≤ most)) }
{
    if word.len() > MOST_DIGITS {
        return None;
    }
    let n = value(word);
    if spells(word, n, least, most) {
        Some(n as u32)
    } else {
        None
    }
}

/// The process whose number the word spells, 0 to 63; None exactly where it spells none of these numbers.
pub fn process(word: &[u8]) -> Option<Pid>
    ensures { result ≡ process_of word.now }
{
    Pid::new(number(word, 0, 63)? as u8)
}

/// Appends a number in decimal digits.
///
/// # Errors
/// [`NoMemory`] only where the room that there was is too small; nothing is appended then.
pub fn push_number(out: &mut Vec<u8>, n: u64) -> Result<(), NoMemory>
    ensures pushed { OnOk result (out.new.items ≡ out.old.items ++ decimal n) }
    ensures unchanged { OnErr result (out.new.items ≡ out.old.items) }
    ensures full { OnErr result (vec_capacity out.old < vec_len out.old + length (decimal n)) }
{
    out.extend_from_slice(Buffer::new().format(n).as_bytes())?;
    Ok(())
}
