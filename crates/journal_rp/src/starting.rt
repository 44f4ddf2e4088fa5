ghost use Rattle.std.specs.Prelude.{◌≡◌, ◌≢◌, [], ℕ, List, IfOk, IfSome, OnOk};
ghost use Rattle.std.specs.Option.{IsSomeAnd};
ghost use Rattle.journal_defs.specs.Journals.{header_bytes, LieBefore};
ghost use Rattle.journal_defs.specs.declared.Version.{Version as Kind};
ghost use Rattle.journal_defs.specs.declared.Version.TheVariants.{Two};
ghost use Rattle.journal_disk.specs.Disks.{HasRest, HasLength, OnlyReads, StaysUntold};
ghost use Rattle.journal_rp.specs.Headers.{header as header_of, IsJournal};
ghost use Rattle.journal_rp.specs.Stages.{gate_of, len_of, version_of as version_in};
ghost use Rattle.journal_rp.specs.Answers.{HasCauses, of_start, of_none, IfNotAJournal};

use crate::fault::JournalFault;
use crate::header::{FRESH_BYTES, HEADER_BYTES, Header, fresh_with, header_with, version_of};
use crate::journal::{Journal, Reading};
use journal_defs::Version;
use journal_disk::{begin, fill_from, length_of};
use rp_base::Disk;
use std::marker::PhantomData;

const FIRST_GATE: u64 = HEADER_BYTES as u64;

// A new journal on an empty disk.
fn begun<D: Disk>(disk: &mut D, header: &Header) -> Result<Journal<Reading>, JournalFault>
    requires { HasLength (D.seen disk.old) 0 }

    // It is at rest without entries, whatever crash comes.
    ensures ok { IfOk result (λ j. IsSomeAnd (D.seen disk.old) (λ file. file ≡ [])
        → HasRest (D.seen disk.new) (D.may_leave disk.new) (header_bytes Two (header_of header.now)) [] (gate_of j)) }
    ensures kind { IfOk result (λ j. version_in j ≡ Two) }
    ensures gate { IfOk result (λ j. gate_of j ≡ 60) }
    ensures length { IfOk result (λ j. HasLength (D.seen disk.new) (len_of j)) }
    ensures untold { OnOk result (StaysUntold (D.seen disk.old) (D.seen disk.new)) }
    ensures cause { HasCauses of_none (D.faults disk.old) (D.faults disk.new) result }
{
    let bytes = fresh_with(header);
    begin(disk, &bytes)?;
    Ok(Journal {
        gate: FIRST_GATE,
        len: FRESH_BYTES as u64,
        version: Version::Two,
        state: PhantomData,
    })
}

// The journal that is on the disk.
fn opened<D: Disk>(
    disk: &mut D,
    header: &Header,
    len: u64,
) -> Result<Journal<Reading>, JournalFault>
    requires { HasLength (D.seen disk.old) len }
    ensures found { IfOk result (λ j. IfSome (D.seen disk.old) (IsJournal (version_in j) (header_of header.now))) }
    ensures first { IfOk result (λ j. IfSome (D.seen disk.old)
        (λ file. LieBefore (header_bytes (version_in j) (header_of header.now)) file [] (gate_of j))) }
    ensures refused { IfNotAJournal result (IfSome (D.seen disk.old) (λ file. (v : Kind) → ¬ IsJournal v (header_of header.now) file)) }
    ensures gate { IfOk result (λ j. gate_of j ≡ 60) }
    ensures length { IfOk result (λ j. HasLength (D.seen disk.new) (len_of j)) }
    ensures disk { OnlyReads D.seen D.may_leave D.moment D.left_since disk.old disk.new }
    ensures cause { HasCauses of_start (D.faults disk.old) (D.faults disk.new) result }
{
    let one = header_with(Version::One, header);
    let two = header_with(Version::Two, header);
    if len <= FIRST_GATE {
        return Err(JournalFault::NotAJournal);
    }
    let mut found = [0; HEADER_BYTES];
    fill_from(disk, 0, &mut found)?;
    let Some(version) = version_of(&found, &one, &two) else {
        return Err(JournalFault::NotAJournal);
    };
    Ok(Journal {
        gate: FIRST_GATE,
        len,
        version,
        state: PhantomData,
    })
}

impl Journal<Reading> {
    /// Starts a journal on the disk. On an empty disk a new one is begun, which is there at every crash once this answers Ok;
    /// what a crash leaves before that is no journal. Otherwise nothing is written, and the disk must begin with the header, with
    /// either magic. The journal is then at its first gate, at place 60.
    ///
    /// `NotAJournal` comes exactly where the disk has 1 to 60 bytes or begins with another header.
    pub fn start<D: Disk>(disk: &mut D, header: &Header) -> Result<Journal<Reading>, JournalFault>
        ensures begun { IfOk result (λ j. IsSomeAnd (D.seen disk.old) (λ file. file ≡ [])
            → HasRest (D.seen disk.new) (D.may_leave disk.new) (header_bytes Two (header_of header.now)) [] (gate_of j)) }
        ensures new_kind { IfOk result (λ j. IsSomeAnd (D.seen disk.old) (λ file. file ≡ []) → version_in j ≡ Two) }
        ensures found { IfOk result (λ j. IfSome (D.seen disk.old)
            (λ file. file ≢ [] → IsJournal (version_in j) (header_of header.now) file)) }
        ensures first { IfOk result (λ j. IfSome (D.seen disk.old)
            (λ file. file ≢ [] → LieBefore (header_bytes (version_in j) (header_of header.now)) file [] (gate_of j))) }
        ensures refused { IfNotAJournal result
            (IfSome (D.seen disk.old) (λ file. (file ≢ []) × ((v : Kind) → ¬ IsJournal v (header_of header.now) file))) }
        ensures gate { IfOk result (λ j. gate_of j ≡ 60) }
        ensures length { IfOk result (λ j. HasLength (D.seen disk.new) (len_of j)) }
        ensures untold { OnOk result (StaysUntold (D.seen disk.old) (D.seen disk.new)) }

        // A disk that is not empty is only read: a crash at any moment leaves what it might have left before.
        ensures only_read { IsSomeAnd (D.seen disk.old) (λ file. file ≢ [])
            → OnlyReads D.seen D.may_leave D.moment D.left_since disk.old disk.new }
        ensures cause { HasCauses of_start (D.faults disk.old) (D.faults disk.new) result }
    {
        let len = length_of(disk)?;
        if len == 0 {
            begun(disk, header)
        } else {
            opened(disk, header, len)
        }
    }
}
