//! An entry of a journal: an event, and the signatures that were made in it. Each signature is
//!
//! | Field | Bytes |
//! |---|---|
//! | length | 2, at most 16,384 |
//! | signature | as many as the length says |
ghost use Rattle.std.specs.Prelude.{◌≡◌, IsOk};
ghost use Rattle.stmt_codec.specs.Below.{rest_of};
ghost use Rattle.message_defs.specs.Entries.{kept_at, all_kept_at};
ghost use Rattle.member_events.specs.Finds.{Finds};

use crate::events::Event;
use stmt_codec::{Pid, SIGNATURE_BYTES, bytes_at, u16_at};

/// What a journal keeps of one event.
#[derive(Clone, Copy)]
pub struct Entry<'a> {
    /// The process that took the event.
    pub process: Pid,

    /// The event.
    pub event: Event<'a>,

    /// Whether a further statement was due, and no signature was left.
    pub spent: bool,

    /// The signatures that were made, in order of signing.
    pub signatures: EntrySignatures<'a>,
}

/// The signatures that are left of an entry, one after another.
#[derive(Clone, Copy)]
pub struct EntrySignatures<'a> {
    left: u16,
    bytes: &'a [u8],
    pub ghost readable: { IsOk (all_kept_at left bytes.now) },
}

#[tactic(auto, unfolding(message_defs::specs::Entries::kept_at))]
fn signature_at(bytes: &[u8]) -> Option<(&[u8], &[u8])>
    ensures { Finds (λ x. (x.0.now, x.1.now)) result (kept_at bytes.now) }
{
    let (len, rest) = u16_at(bytes, ()).ok()?;
    if len > SIGNATURE_BYTES {
        return None;
    }
    bytes_at(rest, len as usize, ()).ok()
}

// The bytes after `count` signatures.
fn skip_signatures(count: u16, bytes: &[u8]) -> Option<&[u8]>
    ensures { Finds (λ x. x.now) result (rest_of (all_kept_at count bytes.now)) }
{
    let mut rest = bytes;
    for _ in 0..count {
        let Some((_, after)) = signature_at(rest) else {
            return None;
        };
        rest = after;
    }
    Some(rest)
}

impl<'a> EntrySignatures<'a> {
    ghost use Rattle.member_events.specs.Kept.{kept_of};

    /// `count` signatures from the front of the bytes, and the bytes after them. None, exactly where the bytes end
    /// within a signature, or a signature has more than 16,384 bytes.
    pub fn read(count: u16, bytes: &'a [u8]) -> Option<(EntrySignatures<'a>, &'a [u8])>
        ensures { Finds kept_of result (all_kept_at count bytes.now) }
    {
        let rest = skip_signatures(count, bytes)?;
        Some((EntrySignatures { left: count, bytes }, rest))
    }
}

impl<'a> Iterator for EntrySignatures<'a> {
    ghost use Rattle.std.specs.Iterator.{YieldsFirstRef, item_count};
    ghost use Rattle.member_events.specs.Kept.{signatures_left};

    type Item = &'a [u8];

    ghost next_gives = { YieldsFirstRef signatures_left };

    ghost remaining = { item_count signatures_left };

    fn next(&mut self) -> Option<&'a [u8]> {
        if self.left == 0 {
            return None;
        }
        let Some((signature, rest)) = signature_at(self.bytes) else {
            unreachable!();
        };
        *self = EntrySignatures {
            left: self.left - 1,
            bytes: rest,
        };
        Some(signature)
    }
}
