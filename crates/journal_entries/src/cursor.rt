//! Fields of an entry, one after another. A field that the bytes don't hold, or whose value is out of its range, is none.
ghost use Rattle.std.specs.Int.{w8, w16};
ghost use Rattle.byte_defs.specs.Fields.{number_at};
ghost use Rattle.journal_defs.specs.Entries.{process_at, text_at, flag_at, signatures_at};
ghost use Rattle.member_events.specs.Finds.{Finds};
ghost use Rattle.member_events.specs.Kept.{signatures_left};

use member_events::{EntrySignatures, bytes_at, u8_at, u16_at};
use rp_base::Pid;

/// What is left of an entry's bytes. A cursor that found nothing is not read from again.
#[derive(Drop)]
pub(crate) struct Cursor<'a> {
    pub(crate) rest: &'a [u8],
}

impl<'a> Cursor<'a> {
    pub(crate) fn byte(&mut self) -> Option<u8>
        ensures { Finds (λ x. (x, self.new.rest.now)) result (number_at tt w8 self.old.rest.now) }
    {
        let (value, rest) = u8_at(self.rest, ()).ok()?;
        self.rest = rest;
        Some(value)
    }

    pub(crate) fn short(&mut self) -> Option<u16>
        ensures { Finds (λ x. (x, self.new.rest.now)) result (number_at tt w16 self.old.rest.now) }
    {
        let (value, rest) = u16_at(self.rest, ()).ok()?;
        self.rest = rest;
        Some(value)
    }

    /// The number of a process.
    pub(crate) fn process(&mut self) -> Option<Pid>
        ensures { Finds (λ p. (p, self.new.rest.now)) result (process_at self.old.rest.now) }
    {
        let n = self.byte()?;
        match Pid::new(n) {
            Some(p) => Some(p),
            None => None,
        }
    }

    /// Two bytes of length, and that many bytes.
    pub(crate) fn text(&mut self) -> Option<&'a [u8]>
        ensures { Finds (λ x. (x.now, self.new.rest.now)) result (text_at self.old.rest.now) }
    {
        let len = self.short()?;
        let (text, rest) = bytes_at(self.rest, len as usize, ()).ok()?;
        self.rest = rest;
        Some(text)
    }

    /// 0 or 1.
    pub(crate) fn flag(&mut self) -> Option<bool>
        ensures { Finds (λ b. (b, self.new.rest.now)) result (flag_at self.old.rest.now) }
    {
        let n = self.byte()?;
        if n > 1 {
            return None;
        }
        Some(n == 1)
    }

    /// Two bytes that say how many, and that many signatures.
    pub(crate) fn signatures(&mut self) -> Option<EntrySignatures<'a>>
        ensures { Finds (λ s. (signatures_left s, self.new.rest.now)) result (signatures_at self.old.rest.now) }
    {
        let count = self.short()?;
        let (signatures, rest) = EntrySignatures::read(count, self.rest)?;
        self.rest = rest;
        Some(signatures)
    }
}
