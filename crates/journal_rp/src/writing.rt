ghost use Rattle.std.specs.Prelude.{◌≡◌, ◌↔◌, max, ◌+◌, ◌-◌, ◌^◌, ◌<◌, ◌≤◌, ◌++◌, ◌∷◌, [], List, ℕ, length, IfOk, OnOk, OnErr, IfSome, IsTrue};
ghost use Rattle.journal_defs.specs.Entries.{Entry, IsEntry, entry_bytes};
ghost use Rattle.journal_defs.specs.Journals.{IsClosedAt};
ghost use Rattle.journal_defs.specs.Crashes.{IsWithOrWithout, Survives, staged};
ghost use Rattle.journal_disk.specs.Disks.{HasRest, HasLength, EndsAt, EndsClosed, LeavesOnly, LeavesStaged, StagesThenOpens, StaysUntold};
ghost use Rattle.journal_rp.specs.Stages.{gate_of, len_of, version_of};
ghost use Rattle.journal_rp.specs.Turns.{outcome_of, process_of, staged_of};
ghost use Rattle.journal_rp.specs.Answers.{HasCauses, of_none, of_append, IfFull, IsFull};

use crate::fault::JournalFault;
use crate::journal::{Journal, Reading, Writing};
use crate::turn::{Synced, Turn, Unsynced};
use journal_disk::{append, close_gate};
use rp_base::Disk;
use std::marker::PhantomData;

/// The most bytes of a journal.
const JOURNAL_BYTES: u64 = 1 << 30;

/// What is staged of an entry apart from it: its length, and the next gate.
const STAGED_BESIDE: u64 = 5;

impl Journal<Reading> {
    /// Goes on to take in turns, after the entries that `read` gave: it answered None. A gate that is closed by another byte than
    /// `00` is written as `00`; it was torn while a run opened it. What is on the disk then is made last in either case.
    pub fn finish<D: Disk>(self, disk: &mut D) -> Result<Journal<Writing>, JournalFault>
        requires as_left { HasLength (D.seen disk.old) (len_of self) }
        requires ended { IfSome (D.seen disk.old) (λ file. IsClosedAt file (gate_of self)) }

        // At Ok every crash leaves the entries that were read.
        ensures ok { OnOk result ((head : List ℕ) (fs : List Entry) → EndsAt (D.seen disk.old) head fs (gate_of self)
            → HasRest (D.seen disk.new) (D.may_leave disk.new) head fs (gate_of self)) }

        // A crash at any moment leaves a well formed journal with the entries that the run found, or with the staged one too.
        ensures any_moment { (head : List ℕ) (es fs : List Entry) → Survives head es (D.may_leave disk.old)
            → EndsAt (D.seen disk.old) head fs (gate_of self)
            → LeavesOnly D.moment D.left_since disk.old disk.new (LeavesStaged head es (D.may_leave disk.old)) }

        // And where the gate is closed as it is written, only what a crash could leave before.
        ensures unwritten { (head : List ℕ) (fs : List Entry) → EndsClosed (D.seen disk.old) head fs (gate_of self)
            → LeavesOnly D.moment D.left_since disk.old disk.new (D.may_leave disk.old) }

        // What the next run may find.
        ensures stands { (head : List ℕ) (es fs : List Entry) → Survives head es (D.may_leave disk.old)
            → EndsAt (D.seen disk.old) head fs (gate_of self)
            → Survives head es (D.may_leave disk.new) }
        ensures place { IfOk result (λ j. (gate_of j ≡ gate_of self) × (version_of j ≡ version_of self)) }
        ensures length { IfOk result (λ j. HasLength (D.seen disk.new) (len_of j)) }
        ensures untold { OnOk result (StaysUntold (D.seen disk.old) (D.seen disk.new)) }
        ensures cause { HasCauses of_none (D.faults disk.old) (D.faults disk.new) result }
    {
        close_gate(disk, self.gate)?;
        Ok(Journal {
            gate: self.gate,
            len: self.len,
            version: self.version,
            state: PhantomData,
        })
    }
}

// Whether `more` bytes would pass the most.
fn is_full(gate: u64, more: u64) -> bool
    ensures { IsTrue result ↔ (2 ^ 30 < gate + 1 + more) }
{
    gate >= JOURNAL_BYTES || more > JOURNAL_BYTES - 1 - gate
}

impl Journal<Writing> {
    /// Takes in a turn: its entry is staged after the closed gate and synced, then the gate is opened and synced. The turn may
    /// then be sent and reported, and its process goes on. A fault ends the journal and drops the turn with its process, which may be ahead
    /// of what the disk has.
    ///
    /// `Full` comes exactly where the place after the next gate would pass 2^30, and then nothing is written.
    pub fn append<D: Disk, P: Drop>(
        self,
        disk: &mut D,
        turn: Turn<Unsynced, P>,
    ) -> Result<(Journal<Writing>, Turn<Synced, P>), JournalFault>
        requires as_left { HasLength (D.seen disk.old) (len_of self) }

        // At Ok every crash leaves the entry too.
        ensures ok { IfOk result (λ x. (head : List ℕ) (es : List Entry) (e : Entry)
            → HasRest (D.seen disk.old) (D.may_leave disk.old) head es (gate_of self) → IsEntry e → staged_of turn ≡ staged e
            → HasRest (D.seen disk.new) (D.may_leave disk.new) head (es ++ e ∷ []) (gate_of x.0)) }

        // A crash at any moment leaves a well formed journal with the entry or without it.
        ensures any_moment { (head : List ℕ) (es : List Entry) (e : Entry)
            → HasRest (D.seen disk.old) (D.may_leave disk.old) head es (gate_of self) → IsEntry e → staged_of turn ≡ staged e
            → LeavesOnly D.moment D.left_since disk.old disk.new (IsWithOrWithout head es e) }

        // Before the gate is written, without it.
        ensures in_order { (head : List ℕ) (es : List Entry) (e : Entry)
            → HasRest (D.seen disk.old) (D.may_leave disk.old) head es (gate_of self) → IsEntry e → staged_of turn ≡ staged e
            → StagesThenOpens D.seen D.may_leave D.moment D.left_since disk.old disk.new head es e (gate_of self) }

        // What the next run may find.
        ensures stands { (head : List ℕ) (es : List Entry) (e : Entry)
            → HasRest (D.seen disk.old) (D.may_leave disk.old) head es (gate_of self) → IsEntry e → staged_of turn ≡ staged e
            → Survives head es (D.may_leave disk.new) }

        // The turn that was handed in is the one that is given back.
        ensures outcome { IfOk result (λ x. outcome_of x.1 ≡ outcome_of turn) }
        ensures entry { IfOk result (λ x. staged_of x.1 ≡ staged_of turn) }
        ensures process { IfOk result (λ x. process_of x.1 ≡ process_of turn) }

        // `Full` gives the bytes up to and with the closed gate, and those of the entry.
        ensures full { IfFull result (λ whole entry. (whole ≡ gate_of self + 1) × (entry ≡ length (staged_of turn) - 5)
            × (2 ^ 30 < gate_of self + 1 + length (staged_of turn)) × (disk.new ≡ disk.old)) }
        ensures room { 2 ^ 30 < gate_of self + 1 + length (staged_of turn) → IsFull result }
        ensures place { IfOk result (λ x. gate_of x.0 ≡ gate_of self + length (staged_of turn)) }
        ensures kind { IfOk result (λ x. version_of x.0 ≡ version_of self) }
        ensures length { IfOk result (λ x. HasLength (D.seen disk.new) (len_of x.0)) }
        ensures untold { OnOk result (StaysUntold (D.seen disk.old) (D.seen disk.new)) }
        ensures cause { HasCauses of_append (D.faults disk.old) (D.faults disk.new) result }
    {
        let more = turn.bytes.len() as u64;
        if is_full(self.gate, more) {
            return Err(JournalFault::Full {
                length: self.gate + 1,
                entry: more.saturating_sub(STAGED_BESIDE),
            });
        }
        append(disk, self.gate, &turn.bytes)?;
        Ok((self.behind(more), turn.synced()))
    }

    // The journal `more` bytes further on.
    fn behind(self, more: u64) -> Journal<Writing>
        requires { gate_of self + 1 + more ≤ 2 ^ 30 }
        ensures gate { gate_of result ≡ gate_of self + more }
        ensures len { len_of result ≡ max (len_of self) (gate_of self + 1 + more) }
        ensures kind { version_of result ≡ version_of self }
    {
        Journal {
            gate: self.gate + more,
            len: self.len.max(self.gate + 1 + more),
            version: self.version,
            state: PhantomData,
        }
    }
}
