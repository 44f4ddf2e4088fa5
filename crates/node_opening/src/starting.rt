//! The journal of a kit's processes, as it is started.
ghost use Rattle.std.specs.Prelude.{◌≡◌, ◌≢◌, [], ℕ, length, Option, IfErr, IfOk};
ghost use Rattle.std.specs.Option.{IsSomeAnd};
ghost use Rattle.kit_defs.specs.Kits.{IsKit};
ghost use Rattle.journal_defs.specs.declared.Version.{Version};
ghost use Rattle.journal_defs.specs.Journals.{header_bytes};
ghost use Rattle.journal_disk.specs.Disks.{HasLength, OnlyReads};
ghost use Rattle.journal_rp.specs.Headers.{header};
ghost use Rattle.journal_rp.specs.Stages.{gate_of, len_of, version_of};
ghost use Rattle.restored_hosts.specs.Below.{stop as stop_of, HasDiskCause, SnapSaid};
ghost use Rattle.node_opening.specs.Holding.{IsBegun, header_in};
ghost use Rattle.node_opening.specs.Reading.{Unread};

use journal_rp::{Header, Journal, Reading};
use restored_hosts::{Kit, Stop, stop_at};
use rp_base::Disk;

fn header_of(kit: &Kit) -> Header
    requires { IsKit kit.now }
    ensures value { header result ≡ header_in kit.now }
    ensures long { (v : Version) → length (header_bytes v (header_in kit.now)) ≡ 60 }
{
    Header {
        group: kit.group(),
        hosted: kit.hosted(),
        digest: kit.digest(),
    }
}

/// The journal that the disk holds, or a new one where it is empty, at its first gate.
pub(crate) fn begin<D: Disk>(kit: &Kit, disk: &mut D) -> Result<Journal<Reading>, Stop>
    requires { IsKit kit.now }
    ensures begun { IfOk result (λ j. IsBegun kit.now (version_of j) (D.seen disk.old) (D.seen disk.new) (gate_of j)) }
    ensures gate { IfOk result (λ j. gate_of j ≡ 60) }
    ensures length { IfOk result (λ j. HasLength (D.seen disk.new) (len_of j)) }
    ensures unread { (s : Option SnapSaid) (lines : ℕ) → IfErr result (λ why. Unread kit.now s lines (D.seen disk.old) (stop_of why)) }

    // A disk that is not empty is only read.
    ensures only_read { IsSomeAnd (D.seen disk.old) (λ file. file ≢ [])
        → OnlyReads D.seen D.may_leave D.moment D.left_since disk.old disk.new }
    ensures cause { HasDiskCause (D.faults disk.old) (D.faults disk.new) result }
{
    match Journal::<Reading>::start(disk, &header_of(kit)) {
        Ok(journal) => Ok(journal),
        Err(fault) => Err(stop_at(fault)),
    }
}
