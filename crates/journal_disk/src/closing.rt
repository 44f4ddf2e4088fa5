ghost use Rattle.std.specs.Prelude.{◌≡◌, ◌≢◌, ◌+◌, ◌≤◌, ◌∷◌, [], List, ℕ, length, OnOk, IfSome};
ghost use Rattle.std.specs.List.{AllByRecursion};
ghost use Rattle.rp_base.specs.Causes.{HasCause};
ghost use Rattle.rp_base.specs.Disks.{NoNewImage};
ghost use Rattle.journal_defs.specs.Entries.{Entry, IsEntry};
ghost use Rattle.journal_defs.specs.Journals.{up_to_gate};
ghost use Rattle.journal_defs.specs.Crashes.{IsWithOrWithout, AllOpening, Survives};
ghost use Rattle.journal_disk.specs.Disks.{HasRest, EndsAt, EndsClosed, HasLength, LeavesOnly, LeavesStaged, StaysUntold};

use crate::pieces::byte_at;
use rp_base::{Disk, Failed};

const CLOSED: u8 = 0;

/// Closes the gate at which the reading of a journal ended, and makes that last. A gate that is closed as it is written is
/// left as it is.
pub fn close_gate<D: Disk>(disk: &mut D, gate: u64) -> Result<(), Failed>
    requires { IfSome (D.seen disk.old) (λ file. gate + 1 ≤ length file) }

    // At Ok the journal is at rest with the entries that were read, whatever crash comes.
    ensures ok { OnOk result ((head : List ℕ) (fs : List Entry) → EndsAt (D.seen disk.old) head fs gate
        → HasRest (D.seen disk.new) (D.may_leave disk.new) head fs gate) }

    // A crash at any moment leaves a well formed journal with the entries that the run found, or with the staged one too.
    ensures any_moment { (head : List ℕ) (es fs : List Entry) → Survives head es (D.may_leave disk.old)
        → EndsAt (D.seen disk.old) head fs gate
        → LeavesOnly D.moment D.left_since disk.old disk.new (LeavesStaged head es (D.may_leave disk.old)) }

    // And where the gate is closed as it is written, only what a crash could leave before.
    ensures unwritten { (head : List ℕ) (fs : List Entry) → EndsClosed (D.seen disk.old) head fs gate
        → LeavesOnly D.moment D.left_since disk.old disk.new (D.may_leave disk.old) }

    // What the next run may find.
    ensures stands { (head : List ℕ) (es fs : List Entry) → Survives head es (D.may_leave disk.old) → EndsAt (D.seen disk.old) head fs gate
        → Survives head es (D.may_leave disk.new) }
    ensures length { (len : ℕ) → HasLength (D.seen disk.old) len → OnOk result (HasLength (D.seen disk.new) len) }
    ensures untold { OnOk result (StaysUntold (D.seen disk.old) (D.seen disk.new)) }
    ensures cause { HasCause (D.faults disk.old) (D.faults disk.new) result }
{
    let byte = byte_at(disk, gate)?;
    if byte == CLOSED {
        keep_all(disk)
    } else {
        shut_gate(disk, gate)
    }
}

// Makes what is there last.
fn keep_all<D: Disk>(disk: &mut D) -> Result<(), Failed>
    ensures ok { OnOk result ((head : List ℕ) (fs : List Entry) (gate : ℕ) → EndsClosed (D.seen disk.old) head fs gate
        → HasRest (D.seen disk.new) (D.may_leave disk.new) head fs gate) }
    ensures any_moment { LeavesOnly D.moment D.left_since disk.old disk.new (D.may_leave disk.old) }
    ensures images { NoNewImage (D.may_leave disk.old) (D.may_leave disk.new) }
    ensures seen { D.seen disk.new ≡ D.seen disk.old }
    ensures cause { HasCause (D.faults disk.old) (D.faults disk.new) result }
{
    disk.sync()
}

// Writes a closed gate, and makes it last.
fn shut_gate<D: Disk>(disk: &mut D, gate: u64) -> Result<(), Failed>
    requires { IfSome (D.seen disk.old) (λ file. gate + 1 ≤ length file) }
    ensures ok { OnOk result ((head : List ℕ) (fs : List Entry) → EndsAt (D.seen disk.old) head fs gate
        → HasRest (D.seen disk.new) (D.may_leave disk.new) head fs gate) }
    ensures any_moment { (head : List ℕ) (es : List Entry) (e : Entry) → AllByRecursion IsEntry es → IsEntry e
        → AllOpening head es e (D.may_leave disk.old) → gate ≡ length (up_to_gate head es)
        → LeavesOnly D.moment D.left_since disk.old disk.new (IsWithOrWithout head es e) }
    ensures stands { (head : List ℕ) (es : List Entry) (e : Entry) → AllOpening head es e (D.may_leave disk.old)
        → gate ≡ length (up_to_gate head es)
        → AllOpening head es e (D.may_leave disk.new) }
    ensures length { (len : ℕ) → HasLength (D.seen disk.old) len → OnOk result (HasLength (D.seen disk.new) len) }
    ensures untold { OnOk result (StaysUntold (D.seen disk.old) (D.seen disk.new)) }
    ensures cause { HasCause (D.faults disk.old) (D.faults disk.new) result }
{
    disk.write_at(gate, &[CLOSED])?;
    disk.sync()
}
