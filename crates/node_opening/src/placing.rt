//! The place of a snapshot in the kit's journal.
ghost use Rattle.std.specs.Prelude.{◌≡◌, ◌↔◌, ℕ, length, take, IfErr, IfSome, IsTrue, OnOk};
ghost use Rattle.std.specs.Bool.{OnFalse, OnTrue};
ghost use Rattle.std.specs.Int.{w64, to_be_bytes};
ghost use Rattle.rp_base.specs.Pids.{mask_of};
ghost use Rattle.kit_defs.specs.Kits.{IsKit};
ghost use Rattle.journal_defs.specs.Journals.{behind_magic, magic};
ghost use Rattle.journal_defs.specs.declared.Version.TheVariants.{One, Two};
ghost use Rattle.snapshot_defs.specs.declared.Version.TheVariants as images;
ghost use Rattle.journal_disk.specs.Disks.{HasLength, OnlyReads};
ghost use Rattle.journal_rp.specs.Stages.{gate_of, len_of, version_of};
ghost use Rattle.restored_hosts.specs.Below.{SnapSaid, stop as stop_of, HasDiskCause};
ghost use Rattle.node_opening.specs.Begins.{IsSnapFor};
ghost use Rattle.node_opening.specs.Holding.{IsPlaceOf, header_in};
ghost use Rattle.node_opening.specs.Reading.{IsNotAt};

use journal_rp::{Journal, Reading};
use restored_hosts::{Kit, Snap, Stop, Version, stop_at};
use rp_base::{Disk, PidSet};

// A set of processes as a header has it: bit p is process p.
fn mask_bytes(set: PidSet) -> [u8; 8]
    ensures { result ≡ to_be_bytes w64 (mask_of set) }
{
    set.mask().to_be_bytes()
}

// The header of the kit's journal without its magic, over all of `out`.
fn put_header(kit: &Kit, out: &mut [u8])
    requires { length out.old ≡ 56 }
    ensures { out.new ≡ behind_magic (header_in kit.now) }
{
    let group_id = kit.group();
    let (group, rest) = out.split_at_mut(16);
    group.copy_from_slice(group_id.bytes());
    let (hosted, rest) = rest.split_at_mut(8);
    hosted.copy_from_slice(&mask_bytes(kit.hosted()));
    rest.copy_from_slice(&kit.digest());
}

// Whether these bytes are the header of the kit's journal, without its magic.
fn is_header(kit: &Kit, header: &[u8; 56]) -> bool
    ensures { IsTrue result ↔ (header.now ≡ behind_magic (header_in kit.now)) }
{
    let mut own = [0; 56];
    put_header(kit, &mut own);
    own == *header
}

// Whether the journal has images of this version: those of the first are of a journal of the first kind alone.
fn has_images(version: Version, journal: &Journal<Reading>) -> bool
    ensures yes { OnTrue result (version ≡ images.One → version_of journal.now ≡ One) }
    ensures no { OnFalse result ((version ≡ images.One) × (version_of journal.now ≡ Two)) }
{
    match version {
        Version::One => journal.batch() == 1,
        Version::Two => true,
    }
}

/// Goes to the place of the snapshot in the kit's journal, of which nothing was read yet: the bytes before it are hashed.
///
/// # Errors
/// `BadJournal` with the place where it is none of this journal: the snapshot has another header, or images of the first version beside a
/// journal of the second kind, or another digest of the bytes before the place, or the place is not after the header and before the
/// journal's end. And `DiskFailed`.
pub(crate) fn go_to<D: Disk>(
    kit: &Kit,
    snap: &Snap,
    journal: &mut Journal<Reading>,
    disk: &mut D,
) -> Result<(), Stop>
    requires as_left { HasLength (D.seen disk.old) (len_of journal.old) }
    requires unread { gate_of journal.old ≡ 60 }
    requires kind { IfSome (D.seen disk.old) (λ file. take 4 file ≡ magic (version_of journal.old)) }
    ensures there { (t : SnapSaid) → IsSnapFor kit.now t snap.now → OnOk result (IfSome (D.seen disk.old) (IsPlaceOf kit.now t)) }
    ensures gate { (t : SnapSaid) → IsSnapFor kit.now t snap.now → OnOk result (gate_of journal.new ≡ t.place) }
    ensures other { (t : SnapSaid) → IsSnapFor kit.now t snap.now
        → IfErr result (λ why. IsNotAt kit.now t (D.seen disk.old) (stop_of why)) }
    ensures as_left { HasLength (D.seen disk.new) (len_of journal.new) }
    ensures kind { version_of journal.new ≡ version_of journal.old }
    ensures disk { OnlyReads D.seen D.may_leave D.moment D.left_since disk.old disk.new }
    ensures cause { HasDiskCause (D.faults disk.old) (D.faults disk.new) result }
{
    if !is_header(kit, &snap.header) {
        return Err(Stop::BadJournal(snap.place));
    }
    if !has_images(snap.version, journal) {
        return Err(Stop::BadJournal(snap.place));
    }
    match journal.skip(disk, snap.place, &snap.digest) {
        Ok(()) => Ok(()),
        Err(fault) => Err(stop_at(fault)),
    }
}
