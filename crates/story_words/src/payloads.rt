//! Payloads, in quotation marks where each byte is written as itself, else in hexadecimal.
ghost use Rattle.std.specs.Prelude.{◌≡◌, ◌++◌, ◌∷◌, [], ◌<◌, length, take, OnOk};
ghost use Rattle.std.specs.List.{flat_map, list_all};
ghost use Rattle.text_defs.specs.Words.{space};
ghost use Rattle.trace_defs.specs.Phrases.{is_plain, quoted, payload_words};

use crate::words::{Word, push_next};
use rp_base::NoMemory;
use text_codec::push_hex;

/// The most bytes of a payload that are shown.
const MOST_SHOWN: usize = 24;

fn is_plain(c: u8) -> bool
    ensures { result ≡ is_plain c }
{
    (32..=126).contains(&c) && !matches!(c, b'"' | b'&' | b'<' | b'>' | b'\\')
}

fn are_plain(bytes: &[u8]) -> bool
    ensures { result ≡ list_all is_plain bytes.now }
{
    bytes.iter().all(|c| is_plain(*c))
}

/// Bytes in quotation marks, where each is written as itself, else in hexadecimal.
pub fn push_quoted(out: &mut Vec<u8>, bytes: &[u8]) -> Result<(), NoMemory>
    ensures { OnOk result (out.new.items ≡ out.old.items ++ quoted bytes.now) }
{
    if !are_plain(bytes) {
        return push_hex(out, bytes);
    }
    out.push(b'"')?;
    out.extend_from_slice(bytes)?;
    out.push(b'"')?;
    Ok(())
}

fn push_quoted_next(out: &mut Vec<u8>, bytes: &[u8]) -> Result<(), NoMemory>
    ensures { OnOk result (out.new.items ≡ out.old.items ++ space ∷ quoted bytes.now) }
{
    out.push(b' ')?;
    push_quoted(out, bytes)
}

/// A payload as further words of a line: all of it, or its first bytes and how many it has.
#[tactic(auto, unfolding(trace_defs::specs::Phrases::most_shown))]
pub fn push_payload(out: &mut Vec<u8>, payload: &[u8]) -> Result<(), NoMemory>
    ensures { OnOk result (out.new.items ≡ out.old.items ++ flat_map (λ w. space ∷ w) (payload_words payload.now)) }
{
    if payload.len() <= MOST_SHOWN {
        return push_quoted_next(out, payload);
    }
    push_quoted_next(out, &payload[..MOST_SHOWN])?;
    push_next(out, Word::Text(b".."))?;
    push_next(out, Word::Number(payload.len() as u64))?;
    push_next(out, Word::Text(b"bytes"))
}
