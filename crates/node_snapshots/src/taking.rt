//! A node's snapshot, with where its journal is.
ghost use Rattle.std.specs.Prelude.{◌≡◌, ℕ, List, IfOk, IfSome, take};
ghost use Rattle.sha2.specs.Sha256.{sha256};
ghost use Rattle.journal_disk.specs.Disks.{HasLength, OnlyReads};
ghost use Rattle.journal_rp.specs.Stages.{gate_of, len_of, version_of};
ghost use Rattle.journal_rp.specs.Answers.{HasCauses, of_memory};
ghost use Rattle.node_defs.specs.Casts.{Beginning, cast_of};
ghost use Rattle.node_defs.specs.Nodes.{Node};
ghost use Rattle.node_defs.specs.Snapshots as plain;
ghost use Rattle.node_snapshots.specs.Parts.{ArePartsOf};

use crate::line::snap_line;
use crate::part::Part;
use journal_rp::{Journal, JournalFault, Writing};
use kit_file::Kit;
use rp_base::Disk;
use std::alloc::Global;

/// The line of the snapshot of a node that goes on with this journal: its closed gate and SHA-256 of the bytes before it are read of the disk.
/// There is a part for each hosted process, by rising number. The journal stays as it is, and nothing is written.
///
/// # Errors
/// `DiskFault` where a call of the disk failed, and `NoMemory` as `snap_line` says.
pub fn snap<D: Disk>(
    alloc: Global,
    kit: &Kit,
    parts: &[Part],
    journal: &mut Journal<Writing>,
    disk: &mut D,
) -> Result<Vec<u8>, JournalFault>
    requires as_left { HasLength (D.seen disk.old) (len_of journal.old) }

    // The line that the definitions' node writes, with a digest that is the journal's where the disk says what it holds.
    ensures line { (b : Beginning) (n : Node) → n.gate ≡ gate_of journal.old → ArePartsOf kit.now b n parts.now
        → IfOk result (λ line. (digest : List ℕ) × IfSome (D.seen disk.old) (λ file. digest ≡ sha256 (take n.gate file))
        × (line.items ≡ plain.snap_line (cast_of kit.now (version_of journal.old)) b n digest)) }
    ensures same { journal.new ≡ journal.old }
    ensures as_left { HasLength (D.seen disk.new) (len_of journal.new) }
    ensures disk { OnlyReads D.seen D.may_leave D.moment D.left_since disk.old disk.new }
    ensures cause { HasCauses of_memory (D.faults disk.old) (D.faults disk.new) result }
{
    let mark = journal.mark(disk)?;
    let line = snap_line(alloc, kit, parts, mark.0, &mark.1)?;
    Ok(line)
}
