//! Lists of an image. Each entry is read by its position, which is the place of a delivered message in version 1.
ghost use Rattle.std.specs.Prelude.{◌≡◌, ◌++◌, map, OnOk};
ghost use Rattle.std.specs.List.{flat_map};
ghost use Rattle.std.specs.Int.{w32};
ghost use Rattle.byte_defs.specs.Reads.{Makes};
ghost use Rattle.image_defs.specs.Spelling.{list_bytes};
ghost use Rattle.snapshot_defs.specs.Steps.{times_at, list_at};
ghost use Rattle.snapshot_rp.specs.Faults.{left_of};

use crate::cursor::Cursor;
use crate::fault::ReadError;
use crate::pushing::push_long;
use rp_base::NoMemory;
use snapshot_defs::Version;
use std::alloc::Global;

/// What bytes are read for.
#[derive(Clone, Copy)]
pub(crate) struct Reading {
    pub(crate) alloc: Global,
    pub(crate) version: Version,
}

/// What lists have.
pub(crate) trait Entry: Drop + Sized {
    ghost use Rattle.std.specs.Prelude.{◌≡◌, ◌++◌, ℕ, List, OnOk};
    ghost use Rattle.byte_defs.specs.Reads.{Makes};
    ghost use Rattle.snapshot_defs.specs.Steps.{Step};
    ghost use Rattle.snapshot_defs.specs.declared.Version.{Version};
    ghost use Rattle.snapshot_rp.specs.Faults.{left_of};

    /// What an entry is as plain data.
    ghost Plain: { Type 0 };

    ghost plain: { Self → Plain };

    /// How an entry at this position is read.
    ghost step: { Version → ℕ → List ℕ → Step Plain };

    /// How an entry is written, in version 2.
    ghost spell: { Plain → List ℕ };

    fn read(reading: Reading, cursor: &mut Cursor<'_>, position: usize) -> Result<Self, ReadError>
        ensures { Makes left_of (λ x. (plain x, cursor.new.rest.now)) result (step reading.version position cursor.old.rest.now) };

    fn append_to(&self, out: &mut Vec<u8>) -> Result<(), NoMemory>
        ensures { OnOk result (out.new.items ≡ out.old.items ++ spell (plain self.now)) };
}

/// `count` entries.
pub(crate) fn entries<T: Entry>(
    reading: Reading,
    cursor: &mut Cursor<'_>,
    count: usize,
) -> Result<Vec<T>, ReadError>
    ensures { Makes left_of (λ xs. (map T.plain xs.items, cursor.new.rest.now)) result
        (times_at (T.step reading.version) 0 count cursor.old.rest.now) }
{
    let mut all = Vec::new(reading.alloc);
    for position in 0..count {
        match T::read(reading, cursor, position) {
            Ok(entry) => all.push(entry)?,
            Err(fault) => return Err(fault),
        }
    }
    Ok(all)
}

/// A list: its length in four bytes, and its entries. Room is taken for entries that were read, whatever length is claimed.
pub(crate) fn list<T: Entry>(reading: Reading, cursor: &mut Cursor<'_>) -> Result<Vec<T>, ReadError>
    ensures { Makes left_of (λ xs. (map T.plain xs.items, cursor.new.rest.now)) result
        (list_at (T.step reading.version) cursor.old.rest.now) }
{
    let count = cursor.long()?;
    entries(reading, cursor, count as usize)
}

/// Appends the entries.
pub(crate) fn push_each<T: Entry>(out: &mut Vec<u8>, items: &[T]) -> Result<(), NoMemory>
    ensures { OnOk result (out.new.items ≡ out.old.items ++ flat_map T.spell (map T.plain items.now)) }
{
    'items: for item in items {
        item.append_to(out)?;
    }
    Ok(())
}

/// Appends a list: its length in four bytes, and its entries.
pub(crate) fn push_list<T: Entry>(out: &mut Vec<u8>, items: &[T]) -> Result<(), NoMemory>
    ensures { OnOk result (out.new.items ≡ out.old.items ++ list_bytes T.spell (map T.plain items.now)) }
{
    push_long(out, items.len())?;
    push_each(out, items)
}
