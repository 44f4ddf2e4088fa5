//! The hosted processes of a node as it begins.
ghost use Rattle.std.specs.Prelude.{◌≡◌, ℕ, List, Option, None, Some, take, IfErr, IfOk, IfSome};
ghost use Rattle.kit_defs.specs.Kits.{IsKit};
ghost use Rattle.journal_defs.specs.Journals.{magic};
ghost use Rattle.journal_disk.specs.Disks.{HasLength, OnlyReads};
ghost use Rattle.journal_rp.specs.Stages.{gate_of, len_of, version_of};
ghost use Rattle.restored_hosts.specs.Below.{SnapSaid, stop as stop_of, HasDiskCause};
ghost use Rattle.node_defs.specs.Lines as plain;
ghost use Rattle.node_opening.specs.Begins.{BeginsBy, IsSetOut, IsSnapFor};
ghost use Rattle.node_opening.specs.Holding.{IsBegun};
ghost use Rattle.node_opening.specs.Reading.{IsNotSetOut};

use crate::placing::go_to;
use journal_rp::{Journal, Reading};
use restored_hosts::{Counts, Hosts, Kit, Snap, Stop, hosts_of};
use rp_base::Disk;
use std::alloc::Global;

/// The hosted processes as a node begins with them, and how many entries each had before.
#[derive(Drop)]
pub(crate) struct First {
    pub(crate) hosts: Hosts,
    pub(crate) counts: Counts,
}

// As they start, at the start of the journal.
fn at_start(alloc: Global, kit: &Kit, journal: &Journal<Reading>) -> Result<First, Stop>
    requires { IsKit kit.now }
    ensures sets { (held seen : Option (List ℕ)) → IsBegun kit.now (version_of journal.now) held seen (gate_of journal.now)
        → IfOk result (λ first. IsSetOut kit.now (version_of journal.now) None seen (gate_of journal.now) first.hosts first.counts) }
    ensures other { IfErr result (λ why. stop_of why ≡ plain.NoMemory) }
{
    let hosts = Hosts::new(alloc, kit, journal.batch())?;
    let counts = Counts::new();
    Ok(First { hosts, counts })
}

// As their images tell, at the snapshot's place.
fn at_place<D: Disk>(
    alloc: Global,
    kit: &Kit,
    snap: Snap,
    journal: &mut Journal<Reading>,
    disk: &mut D,
) -> Result<First, Stop>
    requires kit { IsKit kit.now }
    requires begins { (t : SnapSaid) × IsSnapFor kit.now t snap }
    requires as_left { HasLength (D.seen disk.old) (len_of journal.old) }
    requires unread { gate_of journal.old ≡ 60 }
    requires kind { IfSome (D.seen disk.old) (λ file. take 4 file ≡ magic (version_of journal.old)) }
    ensures sets { (t : SnapSaid) → IsSnapFor kit.now t snap → IfOk result (λ first. IsSetOut kit.now (version_of journal.new) (Some t)
        (D.seen disk.new) (gate_of journal.new) first.hosts first.counts) }
    ensures other { (t : SnapSaid) → IsSnapFor kit.now t snap
        → IfErr result (λ why. IsNotSetOut kit.now (Some t) (D.seen disk.old) (stop_of why)) }
    ensures as_left { HasLength (D.seen disk.new) (len_of journal.new) }
    ensures kind { version_of journal.new ≡ version_of journal.old }
    ensures disk { OnlyReads D.seen D.may_leave D.moment D.left_since disk.old disk.new }
    ensures cause { HasDiskCause (D.faults disk.old) (D.faults disk.new) result }
{
    go_to(kit, &snap, journal, disk)?;
    let begun = hosts_of(alloc, kit, snap.processes, journal.batch())?;
    Ok(First {
        hosts: begun.hosts,
        counts: begun.counts,
    })
}

/// The hosted processes of the kit as they start; or, by a snapshot, as their images tell. The journal, of which nothing was read yet, is then
/// at the place of the first entry that they take up.
///
/// # Errors
/// `BadJournal` with the snapshot's place where that is none of this journal (`go_to`); `DiskFailed` and `NoMemory`.
pub(crate) fn set_out<D: Disk>(
    alloc: Global,
    kit: &Kit,
    snap: Option<Snap>,
    journal: &mut Journal<Reading>,
    disk: &mut D,
) -> Result<First, Stop>
    requires kit { IsKit kit.now }
    requires begins { (s : Option SnapSaid) × BeginsBy kit.now s snap }
    requires as_left { HasLength (D.seen disk.old) (len_of journal.old) }
    requires unread { gate_of journal.old ≡ 60 }
    requires kind { IfSome (D.seen disk.old) (λ file. take 4 file ≡ magic (version_of journal.old)) }
    ensures sets { (s : Option SnapSaid) (held : Option (List ℕ)) → BeginsBy kit.now s snap
        → IsBegun kit.now (version_of journal.old) held (D.seen disk.old) (gate_of journal.old)
        → IfOk result (λ first. IsSetOut kit.now (version_of journal.new) s (D.seen disk.new) (gate_of journal.new) first.hosts first.counts) }
    ensures other { (s : Option SnapSaid) → BeginsBy kit.now s snap
        → IfErr result (λ why. IsNotSetOut kit.now s (D.seen disk.old) (stop_of why)) }
    ensures as_left { HasLength (D.seen disk.new) (len_of journal.new) }
    ensures kind { version_of journal.new ≡ version_of journal.old }
    ensures disk { OnlyReads D.seen D.may_leave D.moment D.left_since disk.old disk.new }
    ensures cause { HasDiskCause (D.faults disk.old) (D.faults disk.new) result }
{
    match snap {
        None => at_start(alloc, kit, journal),
        Some(snap) => at_place(alloc, kit, snap, journal, disk),
    }
}
