//! A journal that is held as bytes.
ghost use Rattle.std.specs.Prelude.{◌≡◌, ◌<◌, ◌≤◌, ◌++◌, length, IfOk, IfErr, IfSome, IfNone};
ghost use Rattle.journal_defs.specs.Entries.{IsEntry};
ghost use Rattle.journal_defs.specs.Journals.{record_at, behind_gate, IsClosedAt, HasEntryAt, IsBrokenAt};
ghost use Rattle.member_events.specs.Finds.{Finds};
ghost use Rattle.journal_entries.specs.Views.{entry};

use crate::reading::read_entry;
use member_events::{Entry, bytes_at, u32_at};

const OPEN: u8 = 1;

// What comes after an open gate: the entry, and the bytes from the next gate on.
fn record_behind(behind: &[u8]) -> Option<(Entry<'_>, &[u8])>
    ensures reads { Finds (λ x. (entry x.0, x.1.now)) result (record_at behind.now) }
    ensures spelled { IfSome result (λ x. (behind.now ≡ behind_gate (entry x.0) ++ x.1.now) × (1 ≤ length x.1.now) × IsEntry (entry x.0)) }
    ensures shorter { IfSome result (λ x. length x.1.now ≤ length behind.now) }
{
    record_in(behind)
}

#[tactic(auto, unfolding(journal_defs::specs::Journals::record_at))]
fn record_in(behind: &[u8]) -> Option<(Entry<'_>, &[u8])>
    ensures { Finds (λ x. (entry x.0, x.1.now)) result (record_at behind.now) }
{
    let (len, rest) = u32_at(behind, ()).ok()?;
    let (bytes, rest) = bytes_at(rest, len as usize, ()).ok()?;
    if rest.is_empty() {
        return None;
    }
    let Some(entry) = read_entry(bytes) else {
        return None;
    };
    Some((entry, rest))
}

/// What is at the gate at this place: the entry and the place of the next gate where it is open, `None` where it is
/// closed. The place comes as the error, exactly where the gate is open and no entry and next gate follow it. A
/// journal's first gate is at place 60; there must be a byte at the place.
pub fn entry_at(bytes: &[u8], place: u64) -> Result<Option<(Entry<'_>, u64)>, u64>
    requires { place < length bytes.now }
    ensures found { IfOk result (λ o. IfSome o (λ x. HasEntryAt bytes.now place (entry x.0) x.1)) }
    ensures closed { IfOk result (λ o. IfNone o (IsClosedAt bytes.now place)) }
    ensures broken { IfErr result (λ at. (at ≡ place) × IsBrokenAt bytes.now place) }
{
    let at = place as usize;
    if bytes[at] != OPEN {
        return Ok(None);
    }
    let (_, behind) = bytes.split_at(at + 1);
    match record_behind(behind) {
        Some((entry, rest)) => Ok(Some((entry, (bytes.len() - rest.len()) as u64))),
        None => Err(place),
    }
}
