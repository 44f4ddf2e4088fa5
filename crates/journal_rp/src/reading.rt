ghost use Rattle.std.specs.Prelude.{◌≡◌, ◌+◌, ◌≤◌, ◌<◌, ◌^◌, ℕ, List, length, IfOk, OnErr, IfSome, IfNone};
ghost use Rattle.journal_defs.specs.Journals.{IsClosedAt, HasEntryAt, IsBrokenAt, record_bytes};
ghost use Rattle.journal_disk.specs.Disks.{BeginsAt, HasLength, OnlyReads};
ghost use Rattle.journal_entries.specs.Kept.{kept};
ghost use Rattle.journal_rp.specs.Stages.{gate_of, len_of, version_of};
ghost use Rattle.journal_rp.specs.Gates.{HasLengthAt};
ghost use Rattle.journal_rp.specs.Answers.{HasCauses, of_read, of_entry, of_memory, IfEntry};

use crate::fault::JournalFault;
use crate::journal::{Journal, Reading};
use journal_disk::{byte_at, fill_from, long_at};
use journal_entries::EntryBytes;
use rp_base::Disk;
use std::alloc::Global;

const OPEN: u8 = 1;

/// How many bytes of a record come before its entry: the gate and the length.
const RECORD_HEAD: u64 = 5;

// `len` bytes of the disk.
fn bytes_from<D: Disk>(
    alloc: Global,
    disk: &mut D,
    at: u64,
    len: u64,
) -> Result<Vec<u8>, JournalFault>
    requires { IfSome (D.seen disk.old) (λ file. at + len ≤ length file) }
    ensures bytes { IfOk result (λ bytes. IfSome (D.seen disk.old) (λ file. BeginsAt file at bytes.items)) }
    ensures length { IfOk result (λ bytes. length bytes.items ≡ len) }
    ensures disk { OnlyReads D.seen D.may_leave D.moment D.left_since disk.old disk.new }
    ensures cause { HasCauses of_memory (D.faults disk.old) (D.faults disk.new) result }
{
    let mut bytes = vec![in alloc; 0u8; len as usize]?;
    fill_from(disk, at, bytes.as_mut_slice())?;
    Ok(bytes)
}

// The entry of this length after the open gate at this place.
fn entry_behind<D: Disk>(
    alloc: Global,
    disk: &mut D,
    gate: u64,
    len: u64,
) -> Result<EntryBytes, JournalFault>
    requires length { IfSome (D.seen disk.old) (λ file. HasLengthAt file gate len) }
    requires room { gate + 6 + len < 2 ^ 64 }
    ensures found { IfOk result (λ e. IfSome (D.seen disk.old) (λ file. HasEntryAt file gate (kept e) (gate + (5 + len)))) }
    ensures long { IfOk result (λ e. 5 + len ≡ length (record_bytes (kept e))) }
    ensures broken { IfEntry result (λ place. (place ≡ gate) × IfSome (D.seen disk.old) (λ file. IsBrokenAt file place)) }
    ensures disk { OnlyReads D.seen D.may_leave D.moment D.left_since disk.old disk.new }
    ensures cause { HasCauses of_read (D.faults disk.old) (D.faults disk.new) result }
{
    let bytes = bytes_from(alloc, disk, gate + RECORD_HEAD, len)?;
    match EntryBytes::new(bytes) {
        Some(entry) => Ok(entry),
        None => Err(JournalFault::Entry(gate)),
    }
}

impl Journal<Reading> {
    // How long the entry after the gate is. None where the gate is closed.
    fn entry_len<D: Disk>(&self, disk: &mut D) -> Result<Option<u64>, JournalFault>
        requires { HasLength (D.seen disk.old) (len_of self.now) }
        ensures closed { IfOk result (λ o. IfNone o (IfSome (D.seen disk.old) (λ file. IsClosedAt file (gate_of self.now)))) }
        ensures open { IfOk result (λ o. IfSome o (λ n. IfSome (D.seen disk.old) (λ file. HasLengthAt file (gate_of self.now) n))) }
        ensures room { IfOk result (λ o. IfSome o (λ n. gate_of self.now + 6 + n ≤ len_of self.now)) }
        ensures broken { IfEntry result (λ place. (place ≡ gate_of self.now) × IfSome (D.seen disk.old) (λ file. IsBrokenAt file place)) }
        ensures disk { OnlyReads D.seen D.may_leave D.moment D.left_since disk.old disk.new }
        ensures cause { HasCauses of_entry (D.faults disk.old) (D.faults disk.new) result }
    {
        if byte_at(disk, self.gate)? != OPEN {
            return Ok(None);
        }
        let room = self.len - self.gate;
        if room <= RECORD_HEAD {
            return Err(JournalFault::Entry(self.gate));
        }
        let len = u64::from(long_at(disk, self.gate + 1)?);
        if room - RECORD_HEAD <= len {
            return Err(JournalFault::Entry(self.gate));
        }
        Ok(Some(len))
    }

    /// The entry after the gate, and the journal is then at the next gate. None comes at the first gate that is not open.
    /// After a fault the journal is where it was.
    ///
    /// `Entry` with the gate's place comes exactly where the gate is open, and no whole entry and next gate follow it.
    pub fn read<D: Disk>(
        &mut self,
        alloc: Global,
        disk: &mut D,
    ) -> Result<Option<EntryBytes>, JournalFault>
        requires { HasLength (D.seen disk.old) (len_of self.old) }
        ensures found { IfOk result (λ o. IfSome o
            (λ e. IfSome (D.seen disk.old) (λ file. HasEntryAt file (gate_of self.old) (kept e) (gate_of self.new)))) }
        ensures closed { IfOk result (λ o. IfNone o (IfSome (D.seen disk.old) (λ file. IsClosedAt file (gate_of self.old)))) }
        ensures broken { IfEntry result (λ place. (place ≡ gate_of self.old) × IfSome (D.seen disk.old) (λ file. IsBrokenAt file place)) }

        // Nothing else changes, and where nothing was read, nothing.
        ensures none { IfOk result (λ o. IfNone o (self.new ≡ self.old)) }
        ensures err { OnErr result (self.new ≡ self.old) }
        ensures as_left { HasLength (D.seen disk.new) (len_of self.new) }
        ensures as_long { len_of self.new ≡ len_of self.old }

        // The next gate comes after the entry's record, whether or not the disk says what it holds.
        ensures next { IfOk result (λ o. IfSome o (λ e. gate_of self.new ≡ gate_of self.old + length (record_bytes (kept e)))) }
        ensures kind { version_of self.new ≡ version_of self.old }
        ensures disk { OnlyReads D.seen D.may_leave D.moment D.left_since disk.old disk.new }
        ensures cause { HasCauses of_read (D.faults disk.old) (D.faults disk.new) result }
    {
        let Some(len) = self.entry_len(disk)? else {
            return Ok(None);
        };
        let entry = entry_behind(alloc, disk, self.gate, len)?;
        self.gate += RECORD_HEAD + len;
        Ok(Some(entry))
    }
}
