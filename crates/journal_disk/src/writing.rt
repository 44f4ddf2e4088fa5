ghost use Rattle.std.specs.Prelude.{◌≡◌, max, ◌+◌, ◌^◌, ◌<◌, ◌≤◌, ◌++◌, ◌∷◌, [], List, ℕ, length, OnOk, IfSome};
ghost use Rattle.rp_base.specs.Causes.{HasCause};
ghost use Rattle.journal_defs.specs.Entries.{Entry, IsEntry};
ghost use Rattle.journal_defs.specs.Crashes.{IsImageOf, IsWithOrWithout, AllAtRest, AllOpening, Survives, staged};
ghost use Rattle.journal_disk.specs.Disks.{HasRest, HasStaged, HasLength, LeavesOnly, StagesThenOpens, StaysUntold};

use rp_base::{Disk, Failed};

const OPEN: u8 = 1;

/// Adds an entry to a journal at rest. `bytes` are what is staged of it: its length, the entry, and the next gate, closed.
/// They are written after the closed gate and synced before the gate is opened, and that is synced too, so the entry is
/// there at every crash once this answers Ok.
pub fn append<D: Disk>(disk: &mut D, gate: u64, bytes: &[u8]) -> Result<(), Failed>
    requires within { IfSome (D.seen disk.old) (λ file. gate + 1 ≤ length file) }
    requires limit { gate < 2 ^ 30 }

    // At Ok the journal is at rest with the entry, whatever crash comes.
    ensures ok { OnOk result ((head : List ℕ) (es : List Entry) (e : Entry) → HasRest (D.seen disk.old) (D.may_leave disk.old) head es gate
        → IsEntry e → bytes.now ≡ staged e
        → HasRest (D.seen disk.new) (D.may_leave disk.new) head (es ++ e ∷ []) (gate + length bytes.now)) }

    // A crash at any moment leaves a well formed journal with the entry or without it.
    ensures any_moment { (head : List ℕ) (es : List Entry) (e : Entry) → HasRest (D.seen disk.old) (D.may_leave disk.old) head es gate
        → IsEntry e → bytes.now ≡ staged e
        → LeavesOnly D.moment D.left_since disk.old disk.new (IsWithOrWithout head es e) }

    // Before the gate is written, with the old entries.
    ensures in_order { (head : List ℕ) (es : List Entry) (e : Entry) → HasRest (D.seen disk.old) (D.may_leave disk.old) head es gate
        → IsEntry e → bytes.now ≡ staged e
        → StagesThenOpens D.seen D.may_leave D.moment D.left_since disk.old disk.new head es e gate }

    // What the next run may find.
    ensures stands { (head : List ℕ) (es : List Entry) (e : Entry) → HasRest (D.seen disk.old) (D.may_leave disk.old) head es gate
        → IsEntry e → bytes.now ≡ staged e
        → Survives head es (D.may_leave disk.new) }
    ensures length { (len : ℕ) → HasLength (D.seen disk.old) len
        → OnOk result (HasLength (D.seen disk.new) (max len (gate + 1 + length bytes.now))) }
    ensures untold { OnOk result (StaysUntold (D.seen disk.old) (D.seen disk.new)) }
    ensures cause { HasCause (D.faults disk.old) (D.faults disk.new) result }
{
    stage(disk, gate, bytes)?;
    open_gate(disk, gate)
}

/// Writes an entry and the next gate after the closed gate, and makes them last. The journal reads as before.
pub fn stage<D: Disk>(disk: &mut D, gate: u64, bytes: &[u8]) -> Result<(), Failed>
    requires within { IfSome (D.seen disk.old) (λ file. gate + 1 ≤ length file) }
    requires limit { gate < 2 ^ 30 }
    ensures ok { OnOk result ((head : List ℕ) (es : List Entry) (e : Entry) → HasRest (D.seen disk.old) (D.may_leave disk.old) head es gate
        → IsEntry e → bytes.now ≡ staged e
        → HasStaged (D.seen disk.new) (D.may_leave disk.new) head es e gate) }

    // A crash at any moment leaves the entries that there were.
    ensures any_moment { (head : List ℕ) (es : List Entry) → HasRest (D.seen disk.old) (D.may_leave disk.old) head es gate
        → LeavesOnly D.moment D.left_since disk.old disk.new (λ image. IsImageOf head image es) }
    ensures rests { (head : List ℕ) (es : List Entry) → HasRest (D.seen disk.old) (D.may_leave disk.old) head es gate
        → AllAtRest head es (D.may_leave disk.new) }
    ensures length { (len : ℕ) → HasLength (D.seen disk.old) len
        → OnOk result (HasLength (D.seen disk.new) (max len (gate + 1 + length bytes.now))) }
    ensures within { OnOk result (IfSome (D.seen disk.new) (λ file. gate ≤ length file)) }
    ensures untold { OnOk result (StaysUntold (D.seen disk.old) (D.seen disk.new)) }
    ensures cause { HasCause (D.faults disk.old) (D.faults disk.new) result }
{
    disk.write_at(gate + 1, bytes)?;
    disk.sync()
}

/// Opens the gate before a staged entry, and makes that last.
pub fn open_gate<D: Disk>(disk: &mut D, gate: u64) -> Result<(), Failed>
    requires { IfSome (D.seen disk.old) (λ file. gate ≤ length file) }
    ensures ok { OnOk result ((head : List ℕ) (es : List Entry) (e : Entry)
        → HasStaged (D.seen disk.old) (D.may_leave disk.old) head es e gate
        → HasRest (D.seen disk.new) (D.may_leave disk.new) head (es ++ e ∷ []) (gate + length (staged e))) }

    // A crash at any moment leaves a well formed journal with the entry or without it.
    ensures any_moment { (head : List ℕ) (es : List Entry) (e : Entry) → HasStaged (D.seen disk.old) (D.may_leave disk.old) head es e gate
        → LeavesOnly D.moment D.left_since disk.old disk.new (IsWithOrWithout head es e) }
    ensures opening { (head : List ℕ) (es : List Entry) (e : Entry) → HasStaged (D.seen disk.old) (D.may_leave disk.old) head es e gate
        → AllOpening head es e (D.may_leave disk.new) }
    ensures length { (len : ℕ) → gate + 1 ≤ len → HasLength (D.seen disk.old) len → OnOk result (HasLength (D.seen disk.new) len) }
    ensures untold { OnOk result (StaysUntold (D.seen disk.old) (D.seen disk.new)) }
    ensures cause { HasCause (D.faults disk.old) (D.faults disk.new) result }
{
    disk.write_at(gate, &[OPEN])?;
    disk.sync()
}
