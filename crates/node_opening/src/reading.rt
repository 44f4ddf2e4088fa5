//! How a journal is read: each entry is taken up by its process.
ghost use Rattle.std.specs.Prelude.{◌≡◌, ◌≢◌, ◌+◌, ◌<◌, ◌≤◌, ◌^◌, ◌==◌, [], ℕ, List, None, Option, if◌then◌else◌, IfErr, IfOk, IsSome, IsTrue, OnOk};
ghost use Rattle.std.specs.Option.{IsSomeAnd};
ghost use Rattle.kit_defs.specs.Kits.{IsKit};
ghost use Rattle.journal_defs.specs.declared.Version.{Version};
ghost use Rattle.journal_defs.specs.Entries.{Entry as PlainEntry};
ghost use Rattle.journal_disk.specs.Disks.{HasLength, OnlyReads, StaysUntold};
ghost use Rattle.journal_entries.specs.Kept.{kept};
ghost use Rattle.journal_rp.specs.Stages.{gate_of, len_of, version_of};
ghost use Rattle.node_defs.specs.Casts.{Beginning, cast_of};
ghost use Rattle.node_defs.specs.Nodes.{Node, reads_one, takes_up};
ghost use Rattle.restored_hosts.specs.Below.{AreHosts, stop as stop_of, HasDiskCause, count_in, SnapSaid};
ghost use Rattle.node_opening.specs.Begins.{BeginsBy};
ghost use Rattle.node_opening.specs.Reading.{BreaksOff, HasRead, HasReadAll, HasReadJournal, HasReadOn, RefusesEntry, Unread};

use crate::setting_out::set_out;
use crate::starting::begin;
use journal_rp::{EntryBytes, Journal, Reading};
use restored_hosts::{AbsorbFault, Counts, Entry, Event, Hosts, Kit, Snap, Stop, stop_at};
use rp_base::Disk;
use std::alloc::Global;

/// The hosted processes, which have taken up their journal, and how many entries each had. The journal is at its closed gate.
#[derive(Drop)]
pub(crate) struct Readers {
    pub(crate) journal: Journal<Reading>,
    pub(crate) hosts: Hosts,
    pub(crate) counts: Counts,
}

// The entry at this place, taken up by its process and counted.
fn take_up(
    kit: &Kit,
    place: u64,
    bytes: &EntryBytes,
    hosts: &mut Hosts,
    counts: &mut Counts,
) -> Result<(), Stop>
    requires room { (p : ℕ) → count_in counts.old p + 1 < 2 ^ 64 }
    ensures takes { (version : Version) (n : Node) → let c = cast_of kit.now version in AreHosts c kit.now n.now None hosts.old
        → OnOk result (IsTrue (takes_up c n (kept bytes.now)) × AreHosts c kit.now (reads_one c n (kept bytes.now)).now None hosts.new) }
    ensures counted { OnOk result ((p : ℕ) → count_in counts.new p ≡ count_in counts.old p + (if (kept bytes.now).process == p then 1 else 0)) }
    ensures refuses { (version : Version) (n : Node) → let c = cast_of kit.now version in AreHosts c kit.now n.now None hosts.old
        → IfErr result (λ why. RefusesEntry c n (kept bytes.now) place (stop_of why)) }
    ensures no_disk { (count : ℕ) → HasDiskCause count count result }
{
    let Entry {
        process,
        event,
        spent,
        signatures,
    } = bytes.entry();

    // The type is named, since the checker does not find it here otherwise.
    let event: Event<'_> = event;
    let entry = Entry {
        process,
        event,
        spent,
        signatures,
    };
    match hosts.absorb(&kit.scheme(), &entry) {
        Ok(()) => {
            counts.count(process);
            Ok(())
        }
        Err(AbsorbFault::Differs) => Err(Stop::BadJournal(place)),
        Err(AbsorbFault::NoMemory) => Err(Stop::NoMemory),
    }
}

// The next entry, taken up. False where there is none: the gate is closed.
fn take_next<D: Disk>(
    alloc: Global,
    kit: &Kit,
    disk: &mut D,
    journal: &mut Journal<Reading>,
    hosts: &mut Hosts,
    counts: &mut Counts,
) -> Result<bool, Stop>
    requires as_left { HasLength (D.seen disk.old) (len_of journal.old) }
    requires few { (p : ℕ) → count_in counts.old p ≤ gate_of journal.old }
    ensures reads { (version : Version) (head : List ℕ) (b : Beginning) (lines : ℕ) (es : List PlainEntry) → let c = cast_of kit.now version in
        HasRead c kit.now head b lines (D.seen disk.old) es (gate_of journal.old) hosts.old counts.old
        → IfOk result (HasReadOn c kit.now head b lines (D.seen disk.old) es (gate_of journal.new) hosts.new counts.new) }
    ensures breaks { (version : Version) (head : List ℕ) (b : Beginning) (lines : ℕ) (es : List PlainEntry) → let c = cast_of kit.now version in
        HasRead c kit.now head b lines (D.seen disk.old) es (gate_of journal.old) hosts.old counts.old
        → IfErr result (λ why. BreaksOff c head b lines (D.seen disk.old) (stop_of why)) }
    ensures few { OnOk result ((p : ℕ) → count_in counts.new p ≤ gate_of journal.new) }
    ensures goes_on { IfOk result (λ more. IsTrue more → gate_of journal.old < gate_of journal.new) }
    ensures as_left { HasLength (D.seen disk.new) (len_of journal.new) }
    ensures as_long { len_of journal.new ≡ len_of journal.old }
    ensures kind { version_of journal.new ≡ version_of journal.old }
    ensures disk { OnlyReads D.seen D.may_leave D.moment D.left_since disk.old disk.new }
    ensures cause { HasDiskCause (D.faults disk.old) (D.faults disk.new) result }
{
    let place = journal.place();
    match journal.read(alloc, disk) {
        Ok(Some(bytes)) => {
            let next = journal.place();
            prove!(next > place);
            take_up(kit, place, &bytes, hosts, counts)?;
            Ok(true)
        }
        Ok(None) => Ok(false),
        Err(fault) => Err(stop_at(fault)),
    }
}

// All entries up to the closed gate, taken up.
fn take_all<D: Disk>(
    alloc: Global,
    kit: &Kit,
    disk: &mut D,
    journal: &mut Journal<Reading>,
    hosts: &mut Hosts,
    counts: &mut Counts,
) -> Result<(), Stop>
    requires as_left { HasLength (D.seen disk.old) (len_of journal.old) }
    requires few { (p : ℕ) → count_in counts.old p ≤ gate_of journal.old }
    ensures reads { (version : Version) (head : List ℕ) (b : Beginning) (lines : ℕ) → let c = cast_of kit.now version in
        HasRead c kit.now head b lines (D.seen disk.old) [] (gate_of journal.old) hosts.old counts.old
        → OnOk result (HasReadAll c kit.now head b lines (D.seen disk.old) (gate_of journal.new) hosts.new counts.new) }
    ensures breaks { (version : Version) (head : List ℕ) (b : Beginning) (lines : ℕ) → let c = cast_of kit.now version in
        HasRead c kit.now head b lines (D.seen disk.old) [] (gate_of journal.old) hosts.old counts.old
        → IfErr result (λ why. BreaksOff c head b lines (D.seen disk.old) (stop_of why)) }
    ensures few { OnOk result ((p : ℕ) → count_in counts.new p ≤ gate_of journal.new) }
    ensures as_left { HasLength (D.seen disk.new) (len_of journal.new) }
    ensures kind { version_of journal.new ≡ version_of journal.old }
    ensures disk { OnlyReads D.seen D.may_leave D.moment D.left_since disk.old disk.new }
    ensures cause { HasDiskCause (D.faults disk.old) (D.faults disk.new) result }
{
    'entries: while take_next(alloc, kit, disk, journal, hosts, counts)? {}
    Ok(())
}

/// The hosted processes of a kit, as the entries of their journal make them from where the node begins: its start, or the place of the
/// snapshot. An empty disk gets a new journal.
pub(crate) fn read_journal<D: Disk>(
    alloc: Global,
    kit: &Kit,
    snap: Option<Snap>,
    disk: &mut D,
) -> Result<Readers, Stop>
    requires kit { IsKit kit.now }
    requires begins { (s : Option SnapSaid) × BeginsBy kit.now s snap }
    ensures reads { (s : Option SnapSaid) (lines : ℕ) → BeginsBy kit.now s snap
        → IfOk result (λ r. HasReadJournal kit.now (version_of r.journal) s lines (D.seen disk.old) (D.seen disk.new)
        (gate_of r.journal) r.hosts r.counts) }
    ensures few { IfOk result (λ r. (p : ℕ) → count_in r.counts p ≤ gate_of r.journal) }
    ensures length { IfOk result (λ r. HasLength (D.seen disk.new) (len_of r.journal)) }
    ensures tells { OnOk result (IsSome (D.seen disk.old) → IsSome (D.seen disk.new)) }
    ensures untold { OnOk result (StaysUntold (D.seen disk.old) (D.seen disk.new)) }
    ensures unread { (s : Option SnapSaid) (lines : ℕ) → BeginsBy kit.now s snap
        → IfErr result (λ why. Unread kit.now s lines (D.seen disk.old) (stop_of why)) }

    // A disk that is not empty is only read.
    ensures only_read { IsSomeAnd (D.seen disk.old) (λ file. file ≢ [])
        → OnlyReads D.seen D.may_leave D.moment D.left_since disk.old disk.new }
    ensures cause { HasDiskCause (D.faults disk.old) (D.faults disk.new) result }
{
    let mut journal = begin(kit, disk)?;
    let first = set_out(alloc, kit, snap, &mut journal, disk)?;
    let mut hosts = first.hosts;
    let mut counts = first.counts;
    take_all(alloc, kit, disk, &mut journal, &mut hosts, &mut counts)?;
    Ok(Readers {
        journal,
        hosts,
        counts,
    })
}
