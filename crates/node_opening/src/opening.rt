//! A node that opens.
ghost use Rattle.std.specs.Prelude.{◌≡◌, ℕ, List, Option, IfErr, IfOk, IsSome};
ghost use Rattle.kit_defs.specs.Kits.{IsKit};
ghost use Rattle.journal_defs.specs.declared.Version.{Version};
ghost use Rattle.journal_defs.specs.Entries.{Entry};
ghost use Rattle.journal_defs.specs.Crashes.{Survives};
ghost use Rattle.journal_disk.specs.Disks.{LeavesOnly, LeavesStaged};
ghost use Rattle.node_defs.specs.Casts.{cast_of};
ghost use Rattle.node_defs.specs.Nodes.{Snapper};
ghost use Rattle.node_traces.specs.Outside.{SourceSeen};
ghost use Rattle.node_traces.specs.Seen.{link_seen, sink_seen};
ghost use Rattle.node_traces.specs.Service.{Asked, HeardBy};
ghost use Rattle.restored_hosts.specs.Below.{stop as stop_of, HasDiskCause, SnapSaid, outside};
ghost use Rattle.node_opening.specs.Begins.{BeginsBy, head_in};
ghost use Rattle.node_opening.specs.Opened.{HasOpened, Unopened};

use crate::greeting::host_lines;
use crate::presenting::present;
use crate::reading::read_journal;
use restored_hosts::{Kit, Running, Service, Snap, Stop, stop_at};
use rp_base::{Disk, Link, Sink};
use std::alloc::Global;

/// Opens the node of a kit on its journal; an empty disk gets a new one, of the second kind. The node begins at the start of the journal, or by
/// a snapshot at its place: the bytes before that are only hashed. Each entry from there on is taken up by its process, the ports of the hosted
/// processes are bound, a line of each is written, all in one write, the service begins and what it says is written, and the journal then takes
/// in turns.
///
/// # Errors
/// `BadJournal` with place 0 where the disk is not empty and begins with no header of the kit; with the snapshot's place where that is none of
/// this journal; and else with the place at which the journal has what is no entry of this node. `DiskFailed`, `BindFailed`, `WriteFailed` where
/// a call failed; and `NoMemory`. Until the journal is read, nothing is bound and nothing written, and a disk that is not empty is only read.
pub fn open<'a, D: Disk, L: Link, K: Sink, V: Service>(
    alloc: Global,
    kit: &'a Kit,
    snap: Option<Snap>,
    disk: &mut D,
    link: &mut L,
    output: &mut K,
    service: &mut V,
) -> Result<Running<'a>, Stop>
    requires kit { IsKit kit.now }
    requires begins { (s : Option SnapSaid) × BeginsBy kit.now s snap }

    // At Ok it is a node of the definitions, opened on the entries that the disk held.
    ensures opens { (s : Option SnapSaid) (snaps : Snapper) (most lines : ℕ) (source : SourceSeen) (h : List Asked) → BeginsBy kit.now s snap
        → V.heard service.old h
        → IfOk result (λ r. HeardBy V.heard service.new (λ i. HasOpened s r snaps most lines (D.seen disk.old)
        (outside (link_seen L.sent L.coming L.faults link.old) (sink_seen K.written K.faults output.old) source h)
        (outside (link_seen L.sent L.coming L.faults link.new) (sink_seen K.written K.faults output.new) source i)
        (D.seen disk.new) (D.may_leave disk.new))) }
    ensures kit { IfOk result (λ r. r.kit.now ≡ kit.now) }

    // At Err that is why.
    ensures stops { (s : Option SnapSaid) (snaps : Snapper) (most lines : ℕ) (source : SourceSeen) (h : List Asked) → BeginsBy kit.now s snap
        → V.heard service.old h
        → IfErr result (λ why. HeardBy V.heard service.new (λ i. Unopened kit.now s snaps most lines (D.seen disk.old)
        (outside (link_seen L.sent L.coming L.faults link.old) (sink_seen K.written K.faults output.old) source h)
        (outside (link_seen L.sent L.coming L.faults link.new) (sink_seen K.written K.faults output.new) source i) (stop_of why))) }

    // A crash at any moment leaves a well formed journal with the entries that the run found, or with the staged one too.
    ensures moments { (s : Option SnapSaid) (version : Version) (es : List Entry) → BeginsBy kit.now s snap → IsSome (D.seen disk.old)
        → let head = head_in (cast_of kit.now version) s (D.seen disk.old) in Survives head es (D.may_leave disk.old)
        → LeavesOnly D.moment D.left_since disk.old disk.new (LeavesStaged head es (D.may_leave disk.old)) }

    // And what the next run may find.
    ensures stands { (s : Option SnapSaid) (version : Version) (es : List Entry) → BeginsBy kit.now s snap → IsSome (D.seen disk.old)
        → let head = head_in (cast_of kit.now version) s (D.seen disk.old) in Survives head es (D.may_leave disk.old)
        → Survives head es (D.may_leave disk.new) }
    ensures cause { HasDiskCause (D.faults disk.old) (D.faults disk.new) result }
{
    let readers = read_journal(alloc, kit, snap, disk)?;
    let greeting = host_lines(alloc, &readers.hosts, &readers.counts)?;
    present(
        alloc,
        kit,
        &readers.hosts,
        greeting.as_slice(),
        link,
        output,
        service,
    )?;
    match readers.journal.finish(disk) {
        Ok(journal) => Ok(Running {
            kit,
            hosts: readers.hosts,
            journal,
            counts: readers.counts,
        }),
        Err(fault) => Err(stop_at(fault)),
    }
}
