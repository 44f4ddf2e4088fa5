ghost use Rattle.std.specs.Prelude.{◌≡◌, ◌≢◌, ◌⊎◌, ◌≤◌, ◌<◌, length, take, IfOk, OnOk, OnErr, IfSome};
ghost use Rattle.sha2.specs.Sha256.{sha256};
ghost use Rattle.journal_defs.specs.Journals.{batch_limit};
ghost use Rattle.journal_disk.specs.Disks.{HasLength, OnlyReads};
ghost use Rattle.journal_rp.specs.Stages.{gate_of, len_of, version_of};
ghost use Rattle.journal_rp.specs.Answers.{HasCauses, of_skip, of_none, IfOther};

use crate::fault::JournalFault;
use crate::header::HEADER_BYTES;
use crate::journal::{Journal, Reading, Writing};
use journal_defs::Version;
use journal_disk::digest_before;
use rp_base::Disk;

const FIRST_GATE: u64 = HEADER_BYTES as u64;

impl Journal<Reading> {
    /// How many messages a process orders at one place: 1 in a journal of the magic `RPJ1`, 16 in one of `RPJ2`.
    pub fn batch(&self) -> u8
        ensures { result ≡ batch_limit (version_of self.now) }
    {
        match self.version {
            Version::One => 1,
            Version::Two => 16,
        }
    }

    /// The place of the gate that is read next: after the entries that were read.
    pub fn place(&self) -> u64
        ensures { result ≡ gate_of self.now }
    {
        self.gate
    }

    /// Goes to this place, which was marked with this digest: what comes before it is hashed, and not read. No `read` was made
    /// before.
    ///
    /// What other calls promise of the entries before the gate holds after this where the bytes before the place are those that were
    /// marked, of which the digest is the only witness (`journal_defs::marked_again`).
    ///
    /// `Other` with the place comes exactly where the place is below 60, the disk has no byte at it, or SHA-256 of the bytes before
    /// it is another.
    pub fn skip<D: Disk>(
        &mut self,
        disk: &mut D,
        place: u64,
        digest: &[u8; 32],
    ) -> Result<(), JournalFault>
        requires as_left { HasLength (D.seen disk.old) (len_of self.old) }
        requires unread { gate_of self.old ≡ 60 }
        ensures ok { OnOk result ((60 ≤ place)
            × IfSome (D.seen disk.old) (λ file. (place < length file) × (sha256 (take place file) ≡ digest.now))) }
        ensures gate { OnOk result (gate_of self.new ≡ place) }
        ensures other { IfOther result
            (λ at. (at ≡ place) × IfSome (D.seen disk.old)
            (λ file. 60 ≤ place → place < length file → sha256 (take place file) ≢ digest.now)) }
        ensures err { OnErr result (self.new ≡ self.old) }
        ensures as_left { HasLength (D.seen disk.new) (len_of self.new) }
        ensures kind { version_of self.new ≡ version_of self.old }
        ensures disk { OnlyReads D.seen D.may_leave D.moment D.left_since disk.old disk.new }
        ensures cause { HasCauses of_skip (D.faults disk.old) (D.faults disk.new) result }
    {
        if place < FIRST_GATE || place >= self.len {
            return Err(JournalFault::Other(place));
        }
        if digest_before(disk, place)? != *digest {
            return Err(JournalFault::Other(place));
        }
        self.gate = place;
        Ok(())
    }
}

impl Journal<Writing> {
    /// The closed gate's place, and SHA-256 of the bytes before it.
    pub fn mark<D: Disk>(&mut self, disk: &mut D) -> Result<(u64, [u8; 32]), JournalFault>
        requires as_left { HasLength (D.seen disk.old) (len_of self.old) }
        ensures place { IfOk result (λ mark. mark.0 ≡ gate_of self.old) }
        ensures digest { IfOk result (λ mark. IfSome (D.seen disk.old) (λ file. mark.1 ≡ sha256 (take mark.0 file))) }
        ensures same { self.new ≡ self.old }
        ensures as_left { HasLength (D.seen disk.new) (len_of self.new) }
        ensures disk { OnlyReads D.seen D.may_leave D.moment D.left_since disk.old disk.new }
        ensures cause { HasCauses of_none (D.faults disk.old) (D.faults disk.new) result }
    {
        let digest = digest_before(disk, self.gate)?;
        Ok((self.gate, digest))
    }
}
