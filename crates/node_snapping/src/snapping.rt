//! The line of a node's snapshot, made and written.
ghost use Rattle.std.specs.Prelude.{◌≡◌, ◌∷◌, ℕ, Bool, List, None, IfErr, IfOk, IsSome, IsTrue};
ghost use Rattle.journal_disk.specs.Disks.{HasLength, OnlyReads};
ghost use Rattle.journal_rp.specs.Stages.{len_of, version_of};
ghost use Rattle.node_defs.specs.Casts.{cast_of};
ghost use Rattle.node_defs.specs.Nodes.{Mark, Node, Task};
ghost use Rattle.node_traces.specs.Stops.{Outset};
ghost use Rattle.node_traces.specs.Outside.{LinkSeen, SourceSeen};
ghost use Rattle.node_traces.specs.Seen.{sink_seen};
ghost use Rattle.node_traces.specs.Service.{Asked};
ghost use Rattle.node_serving.specs.Hosts.{AreCountsOf, AreHosts, IsJournalOf, IsNode, cast_in};
ghost use Rattle.node_serving.specs.Stops.{stop as stop_of};
ghost use Rattle.node_serving.specs.Taking.{GoesOnTo, HasDiskCause, HasNode, StopsSo, outside};
ghost use Rattle.node_snapping.specs.Snapping.{HasNoLine, snapper};

use crate::parts::parts_of;
use journal_rp::{Journal, Writing};
use node_serving::{Counts, Hosts, Kit, Running, Stop, say, stop_at};
use node_snapshots::snap as snapshot_line;
use rp_base::{Disk, Sink};
use std::alloc::Global;

// The line of the node's snapshot. The journal stays as it is, and the disk is only read.
fn line_of<D: Disk>(
    alloc: Global,
    kit: &Kit,
    hosts: &Hosts,
    counts: &Counts,
    journal: &mut Journal<Writing>,
    disk: &mut D,
) -> Result<Vec<u8>, Stop>
    requires as_left { HasLength (D.seen disk.old) (len_of journal.old) }
    ensures line { (f : Outset) (n : Node) (reported : Bool) → let c = cast_of kit.now (version_of journal.old) in
        AreHosts c kit.now n.now None hosts.now → AreCountsOf f.begins n counts.now
        → IsJournalOf f.head n journal.old (D.seen disk.old) (D.may_leave disk.old) → (IsTrue reported → IsSome (D.seen disk.old))
        → IfOk result (λ line. (digest : List ℕ) × (line.items ≡ snapper f.head f.begins reported c n digest)) }
    ensures same { journal.new ≡ journal.old }
    ensures as_left { HasLength (D.seen disk.new) (len_of journal.new) }
    ensures disk { OnlyReads D.seen D.may_leave D.moment D.left_since disk.old disk.new }
    ensures none { IfErr result (λ why. HasNoLine (stop_of why)) }
    ensures cause { HasDiskCause (D.faults disk.old) (D.faults disk.new) result }
{
    let parts = parts_of(alloc, hosts, counts)?;
    match snapshot_line(alloc, kit, parts.as_slice(), journal, disk) {
        Ok(line) => Ok(line),
        Err(fault) => Err(stop_at(fault)),
    }
}

/// Writes the line of the node's snapshot: `snap HEX`, or `snap large LENGTH` where the snapshot has over 8,388,608 bytes. The bytes of the
/// journal before its closed gate are read, and hashed; nothing changes but the output.
///
/// # Errors
/// The node ends: `NoMemory`, `DiskFailed`, `WriteFailed`.
pub fn snap<'a, D: Disk, K: Sink>(
    alloc: Global,
    running: Running<'a>,
    disk: &mut D,
    output: &mut K,
) -> Result<Running<'a>, Stop>
    requires node { HasNode (D.seen disk.old) (D.may_leave disk.old) running }

    // A node that is asked for a snapshot writes its line, and goes on with its other tasks. `reported` says that the disk tells what it holds:
    // then the digest in the line is the journal's.
    ensures goes_on { (reported : Bool) (most : ℕ) (f : Outset) (link : LinkSeen) (source : SourceSeen) (h : List Asked) (n : Node)
        (ts : List Task) → (IsTrue reported → IsSome (D.seen disk.old))
        → IsNode f (D.seen disk.old) (D.may_leave disk.old) running.entry n (Mark ∷ ts)
        → IfOk result (GoesOnTo D.seen D.may_leave D.moment D.left_since (cast_in running.entry)
        (snapper f.head f.begins reported (cast_in running.entry)) most f n (outside link (sink_seen K.written K.faults output.old) source h) disk.old ts
        (outside link (sink_seen K.written K.faults output.new) source h) disk.new) }

    // Or it stops, after some calls and their answers.
    ensures stops { (reported : Bool) (most : ℕ) (f : Outset) (link : LinkSeen) (source : SourceSeen) (h : List Asked) (n : Node)
        (ts : List Task) → (IsTrue reported → IsSome (D.seen disk.old))
        → IsNode f (D.seen disk.old) (D.may_leave disk.old) running.entry n (Mark ∷ ts)
        → IfErr result (λ why. StopsSo D.seen D.may_leave D.moment D.left_since (cast_in running.entry)
        (snapper f.head f.begins reported (cast_in running.entry)) most f n (outside link (sink_seen K.written K.faults output.old) source h) disk.old (stop_of why)
        (outside link (sink_seen K.written K.faults output.new) source h) disk.new) }
    ensures cause { HasDiskCause (D.faults disk.old) (D.faults disk.new) result }
{
    let Running {
        kit,
        hosts,
        journal,
        counts,
    } = running;
    let mut journal = journal;
    let line = line_of(alloc, kit, &hosts, &counts, &mut journal, disk)?;
    say(output, line.as_slice())?;
    Ok(Running {
        kit,
        hosts,
        journal,
        counts,
    })
}
