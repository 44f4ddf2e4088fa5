ghost use Rattle.std.specs.Prelude.{◌≡◌, ◌≤◌, ◌++◌, ◌∷◌, [], List, ℕ, length, Some, OnOk, IfSome};
ghost use Rattle.rp_base.specs.Causes.{HasCause};
ghost use Rattle.journal_defs.specs.Journals.{closed_gate};
ghost use Rattle.journal_disk.specs.Disks.{HasRest, HasLength, StaysUntold};

use rp_base::{Disk, Failed};

/// Writes the first bytes of a journal to an empty disk, a header and a closed gate, and makes them last.
pub fn begin<D: Disk>(disk: &mut D, bytes: &[u8]) -> Result<(), Failed>
    requires { IfSome (D.seen disk.old) (λ file. 0 ≤ length file) }

    // At Ok it is a journal at rest without entries, whatever crash comes.
    ensures ok { OnOk result ((head : List ℕ) → bytes.now ≡ head ++ closed_gate ∷ [] → D.seen disk.old ≡ Some []
        → HasRest (D.seen disk.new) (D.may_leave disk.new) head [] (length head)) }
    ensures length { OnOk result (HasLength (D.seen disk.old) 0 → HasLength (D.seen disk.new) (length bytes.now)) }
    ensures untold { OnOk result (StaysUntold (D.seen disk.old) (D.seen disk.new)) }
    ensures cause { HasCause (D.faults disk.old) (D.faults disk.new) result }
{
    disk.write_at(0, bytes)?;
    disk.sync()
}
