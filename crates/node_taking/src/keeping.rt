//! The turn's entry, appended to the journal.
ghost use Rattle.std.specs.Prelude.{◌≡◌, ◌<◌, ◌^◌, ◌∷◌, ℕ, List, IfOk, IfErr};
ghost use Rattle.journal_defs.specs.Entries.{Event};
ghost use Rattle.journal_disk.specs.Disks.{HasLength};
ghost use Rattle.journal_rp.specs.Stages.{gate_of, len_of, version_of};
ghost use Rattle.journal_rp.specs.Turns.{staged_of};
ghost use Rattle.node_defs.specs.Casts.{Cast};
ghost use Rattle.node_defs.specs.Nodes.{Node, Snapper, Task, Take};
ghost use Rattle.node_traces.specs.Stops.{Outset};
ghost use Rattle.node_traces.specs.Goes.{Outside};
ghost use Rattle.sealing_laws.specs.Running.{IsAt, IsJournalOf};
ghost use Rattle.sealing_laws.specs.Running.{stop as stop_of};
ghost use Rattle.node_taking.specs.Taking.{HasDiskCause, StopsSo};
ghost use Rattle.node_taking.specs.Turns.{IsTurnOf};
ghost use Rattle.node_taking.specs.Keeping.{IsSameTurn, Keeps};

use crate::stepping::Away;
use journal_rp::{Journal, Synced, Unsynced, Writing};
use rp_base::Disk;
use sealing_laws::{Stop, stop_at};

/// Appends the entry of a turn to the journal. With it the turn is in the journal for good.
///
/// # Errors
/// `DiskFailed`, and `Full` exactly where the journal would pass 2^30 bytes. The process is lost then.
pub(crate) fn keep<D: Disk>(
    journal: Journal<Writing>,
    away: Away<Unsynced>,
    disk: &mut D,
) -> Result<(Journal<Writing>, Away<Synced>), Stop>
    requires { HasLength (D.seen disk.old) (len_of journal) }
    ensures keeps { (c : Cast) (snap : Snapper) (most : ℕ) (f : Outset) (n : Node) (p : ℕ) (e : Event) (ts : List Task) (x : Outside)
        → IsAt n (Take p e ∷ ts) → IsJournalOf f.head n journal (D.seen disk.old) (D.may_leave disk.old)
        → IsTurnOf c (n.now p) e (staged_of away.turn)
        → IfOk result (λ r. Keeps D.seen D.may_leave D.moment D.left_since c snap most f n p e ts x disk.old disk.new r.0) }
    ensures stops { (c : Cast) (snap : Snapper) (most : ℕ) (f : Outset) (n : Node) (p : ℕ) (e : Event) (ts : List Task) (x : Outside)
        → IsAt n (Take p e ∷ ts) → IsJournalOf f.head n journal (D.seen disk.old) (D.may_leave disk.old)
        → IsTurnOf c (n.now p) e (staged_of away.turn)
        → IfErr result (λ why. StopsSo D.seen D.may_leave D.moment D.left_since c snap most f n x disk.old (stop_of why) x disk.new) }
    ensures same { IfOk result (λ r. IsSameTurn away r.1) }
    ensures kind { IfOk result (λ r. version_of r.0 ≡ version_of journal) }
    ensures room { IfOk result (λ r. gate_of journal < 2 ^ 30) }
    ensures cause { HasDiskCause (D.faults disk.old) (D.faults disk.new) result }
{
    let Away { turn, keys, port } = away;
    match journal.append(disk, turn) {
        Ok((journal, turn)) => Ok((journal, Away { turn, keys, port })),
        Err(fault) => Err(stop_at(fault)),
    }
}
