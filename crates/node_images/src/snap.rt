//! The snapshot that a line says, judged.
ghost use Rattle.std.specs.Prelude.{◌≡◌, ◌↔◌, is_some, length, IfOk, IfSome, IsTrue, Some};
ghost use Rattle.kit_defs.specs.Kits.{IsKit};
ghost use Rattle.journal_defs.specs.declared.Version.{Version as JournalVersion};
ghost use Rattle.node_defs.specs.Casts.{cast_of, hosted_by};
ghost use Rattle.node_defs.specs.Snapshots.{IsSnapshotFor};
ghost use Rattle.snapshot_lines.specs.Said as plain;
ghost use Rattle.snapshot_lines.specs.Views.{ArePartsOf, said_as};
ghost use Rattle.node_images.specs.Judging.{IsSaidFor, IsSnapOf};

use crate::judged::Judged;
use crate::parts::judge_parts;
use node_keys::Kit;
use rp_base::NoMemory;
use snapshot_lines::{SnapSaid, Version, read_snap};
use std::alloc::Global;

/// A snapshot that a node of the kit may begin by.
#[derive(Drop)]
pub struct Snap {
    /// The version of its images.
    pub version: Version,

    /// The header of its journal, without the magic.
    pub header: [u8; 56],

    /// The place of the journal at which the node goes on.
    pub place: u64,

    /// SHA-256 of the journal's bytes before it.
    pub digest: [u8; 32],

    /// The hosted processes, by rising number.
    pub processes: Vec<Judged>,
}

// The digest again, which has 32 bytes.
fn whole(digest: [u8; 32]) -> [u8; 32]
    ensures same { result ≡ digest }
    ensures long { length digest ≡ 32 }
{
    digest
}

// What is said, judged; None exactly where it is no snapshot for the kit's node.
fn judge_said(alloc: Global, kit: &Kit, said: SnapSaid) -> Result<Option<Snap>, NoMemory>
    requires kit { IsKit kit.now }
    requires parts { ArePartsOf (hosted_by kit.now) (said_as said).parts }
    ensures exact { (version : JournalVersion) → IfOk result (λ r. IsTrue (is_some r)
        ↔ IsSnapshotFor (cast_of kit.now version) (plain.snapshot_said (said_as said))) }
    ensures is { IfOk result (λ r. IfSome r (IsSnapOf kit.now (said_as said))) }
{
    let SnapSaid {
        version,
        header,
        place,
        digest,
        parts,
    } = said;
    match judge_parts(alloc, kit, place, parts)? {
        Some(processes) => Ok(Some(Snap {
            version,
            header,
            place,
            digest: whole(digest),
            processes,
        })),
        None => Ok(None),
    }
}

/// The snapshot that this line says, given without its line feed; None exactly where the line says none, or one by which a node of this kit
/// may not begin: an image that is another process's or not kept, more signed claims than a key can make signatures, or more entries than
/// the place. No signature is verified twice, and no call is made of the disk.
///
/// # Errors
/// [`NoMemory`].
pub fn judge_line(alloc: Global, kit: &Kit, line: &[u8]) -> Result<Option<Snap>, NoMemory>
    requires { IsKit kit.now }

    // There is one exactly where the line says a snapshot for the kit's node, whatever the version of its journal.
    ensures exact { (version : JournalVersion) → IfOk result (λ r. IsTrue (is_some r) ↔ IsSaidFor (cast_of kit.now version) line.now) }

    // It is the one that the line says, and its processes are those of the images.
    ensures is { IfOk result (λ r. IfSome r (λ snap. (t : plain.SnapSaid) × (plain.snap_said (hosted_by kit.now) line.now ≡ Some t)
        × ArePartsOf (hosted_by kit.now) t.parts × IsSnapOf kit.now t snap)) }
{
    match read_snap(alloc, kit.hosted(), line)? {
        Some(said) => judge_said(alloc, kit, said),
        None => Ok(None),
    }
}
