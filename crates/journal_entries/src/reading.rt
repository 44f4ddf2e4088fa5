//! An entry is
//!
//! | Field | Bytes |
//! |---|---|
//! | process | 1, at most 63 |
//! | event | `01` length2 payload, `02` from1 length2 bytes, `06` process1, `07` process1, `08` or `09` |
//! | spent | 1, 0 or 1 |
//! | signatures | 2 bytes that say how many, and for each length2, at most 16,384, and that many bytes |
ghost use Rattle.std.specs.Prelude.{◌≡◌, IfSome, IsSomeAnd};
ghost use Rattle.journal_defs.specs.Entries as plain;
ghost use Rattle.journal_defs.specs.Entries.{submit_at, frame_at, of_process_at, event_at, entry_of, entry_bytes, IsEntry};
ghost use Rattle.member_events.specs.Finds.{Finds};
ghost use Rattle.journal_entries.specs.Views.{event, entry};

use crate::cursor::Cursor;
use member_events::{Entry, Event};

const SUBMIT: u8 = 1;

const FRAME: u8 = 2;

const SUSPECT: u8 = 6;

const JOIN: u8 = 7;

const RENEW: u8 = 8;

const TICK: u8 = 9;

#[tactic(auto, unfolding(journal_defs::specs::Entries::submit_at))]
fn submit<'a>(cursor: &mut Cursor<'a>) -> Option<Event<'a>>
    ensures { Finds (λ e. (event e, cursor.new.rest.now)) result (submit_at cursor.old.rest.now) }
{
    let payload = cursor.text()?;
    Some(Event::Submit(payload))
}

#[tactic(auto, unfolding(journal_defs::specs::Entries::frame_at))]
fn frame<'a>(cursor: &mut Cursor<'a>) -> Option<Event<'a>>
    ensures { Finds (λ e. (event e, cursor.new.rest.now)) result (frame_at cursor.old.rest.now) }
{
    let from = cursor.process()?;
    let bytes = cursor.text()?;
    Some(Event::Frame { from, bytes })
}

#[tactic(auto, unfolding(journal_defs::specs::Entries::of_process_at))]
fn suspect<'a>(cursor: &mut Cursor<'_>) -> Option<Event<'a>>
    ensures { Finds (λ e. (event e, cursor.new.rest.now)) result (of_process_at plain.Suspect cursor.old.rest.now) }
{
    let process = cursor.process()?;
    Some(Event::Suspect(process))
}

#[tactic(auto, unfolding(journal_defs::specs::Entries::of_process_at))]
fn join<'a>(cursor: &mut Cursor<'_>) -> Option<Event<'a>>
    ensures { Finds (λ e. (event e, cursor.new.rest.now)) result (of_process_at plain.Join cursor.old.rest.now) }
{
    let process = cursor.process()?;
    Some(Event::Join(process))
}

// By the first byte.
#[tactic(auto, unfolding(journal_defs::specs::Entries::event_at))]
fn event_from<'a>(cursor: &mut Cursor<'a>) -> Option<Event<'a>>
    ensures { Finds (λ e. (event e, cursor.new.rest.now)) result (event_at cursor.old.rest.now) }
{
    let tag = cursor.byte()?;
    match tag {
        SUBMIT => submit(cursor),
        FRAME => frame(cursor),
        SUSPECT => suspect(cursor),
        JOIN => join(cursor),
        RENEW => Some(Event::Renew),
        TICK => Some(Event::Tick),
        _ => None,
    }
}

/// The entry that the bytes are, all of them. None, exactly where they are no entry.
pub fn read_entry(bytes: &[u8]) -> Option<Entry<'_>>
    // What is read is in the grammar, and spelled so.
    ensures found { IfSome result (λ x. IsEntry (entry x) × (bytes.now ≡ entry_bytes (entry x))) }

    // What is spelled so is read.
    ensures only { (e : plain.Entry) → IsEntry e → bytes.now ≡ entry_bytes e → IsSomeAnd result (λ x. entry x ≡ e) }
    ensures exact { Finds entry result (entry_of bytes.now) }
{
    entry_in(bytes)
}

#[tactic(auto, unfolding(journal_defs::specs::Entries::entry_of))]
fn entry_in(bytes: &[u8]) -> Option<Entry<'_>>
    ensures { Finds entry result (entry_of bytes.now) }
{
    let mut cursor = Cursor { rest: bytes };
    let process = cursor.process()?;
    let Some(event) = event_from(&mut cursor) else {
        return None;
    };
    let spent = cursor.flag()?;
    let signatures = cursor.signatures()?;
    if !cursor.rest.is_empty() {
        return None;
    }
    Some(Entry {
        process,
        event,
        spent,
        signatures,
    })
}
