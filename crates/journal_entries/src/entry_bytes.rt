ghost use Rattle.std.specs.Prelude.{IsOk};
ghost use Rattle.journal_defs.specs.Entries.{entry_of};

use crate::reading::read_entry;
use member_events::Entry;

/// The bytes of one entry. Only bytes that are an entry are ever kept so.
#[derive(Drop)]
pub struct EntryBytes {
    bytes: Vec<u8>,
    pub ghost readable: { IsOk (entry_of bytes.items) },
}

impl EntryBytes {
    ghost use Rattle.std.specs.Prelude.{◌≡◌, IfSome};
    ghost use Rattle.journal_defs.specs.Entries.{entry_bytes, IsEntry};
    ghost use Rattle.member_events.specs.Finds.{Finds};
    ghost use Rattle.journal_entries.specs.Views.{entry};
    ghost use Rattle.journal_entries.specs.Kept.{kept};

    /// Keeps the bytes, where they are an entry, all of them. None, exactly where they are none.
    pub fn new(bytes: Vec<u8>) -> Option<EntryBytes>
        ensures reads { Finds kept result (entry_of bytes.items) }
        ensures spelled { IfSome result (λ e. (bytes.items ≡ entry_bytes (kept e)) × IsEntry (kept e)) }
    {
        if read_entry(bytes.as_slice()).is_none() {
            return None;
        }
        Some(EntryBytes { bytes })
    }

    /// The entry.
    pub fn entry(&self) -> Entry<'_>
        ensures { entry result ≡ kept self.now }
    {
        let Some(entry) = read_entry(self.bytes.as_slice()) else {
            unreachable!();
        };
        entry
    }
}
