//! The bytes of a snapshot.
ghost use Rattle.std.specs.Prelude.{◌≡◌, ◌++◌, map, IfOk, OnOk};
ghost use Rattle.std.specs.Int.{w64, to_be_bytes};
ghost use Rattle.rp_base.specs.Pids.{mask_of};
ghost use Rattle.journal_defs.specs.declared.Version.{Version};
ghost use Rattle.journal_defs.specs.Journals.{behind_magic};
ghost use Rattle.node_defs.specs.Casts.{Beginning, cast_of};
ghost use Rattle.node_defs.specs.Nodes.{Node};
ghost use Rattle.node_defs.specs.Snapshots.{snapshot_bytes, snapshot_of};
ghost use Rattle.node_snapshots.specs.Parts.{ArePartsOf, front_of, header_of, part_as, parts_of};

use crate::part::{Part, push_part};
use kit_file::Kit;
use rp_base::{NoMemory, PidSet};
use std::alloc::Global;

// A set of processes as a header has it: bit p is process p.
fn mask_bytes(set: PidSet) -> [u8; 8]
    ensures { result ≡ to_be_bytes w64 (mask_of set) }
{
    set.mask().to_be_bytes()
}

// The header of the kit's journal, without its magic.
fn push_header(kit: &Kit, out: &mut Vec<u8>) -> Result<(), NoMemory>
    ensures { OnOk result (out.new.items ≡ out.old.items ++ behind_magic (header_of kit.now)) }
{
    let group = kit.group();
    out.extend_from_slice(group.bytes())?;
    out.extend_from_slice(&mask_bytes(kit.hosted()))?;
    out.extend_from_slice(&kit.digest())?;
    Ok(())
}

// What comes before the parts.
fn push_front(kit: &Kit, place: u64, digest: &[u8; 32], out: &mut Vec<u8>) -> Result<(), NoMemory>
    ensures { OnOk result (out.new.items ≡ out.old.items ++ front_of kit.now place digest.now) }
{
    out.extend_from_slice(b"RPN2")?;
    push_header(kit, out)?;
    out.extend_from_slice(&place.to_be_bytes())?;
    out.extend_from_slice(digest)?;
    Ok(())
}

fn push_parts(alloc: Global, parts: &[Part], out: &mut Vec<u8>) -> Result<(), NoMemory>
    ensures { OnOk result (out.new.items ≡ out.old.items ++ parts_of (map part_as parts.now)) }
{
    'parts: for part in parts {
        push_part(alloc, part, out)?;
    }
    Ok(())
}

/// The bytes of the snapshot of a node with this kit, whose journal has its closed gate at this place; SHA-256 of the bytes before it is
/// given, and a part for each hosted process, by rising number.
///
/// # Errors
/// [`NoMemory`].
pub(crate) fn snapshot_text(
    alloc: Global,
    kit: &Kit,
    parts: &[Part],
    place: u64,
    digest: &[u8; 32],
) -> Result<Vec<u8>, NoMemory>
    ensures { (version : Version) (b : Beginning) (n : Node) → n.gate ≡ place → ArePartsOf kit.now b n parts.now
        → IfOk result (λ bytes. bytes.items ≡ snapshot_bytes (cast_of kit.now version) (snapshot_of b n digest.now)) }
{
    let mut out = Vec::new(alloc);
    push_front(kit, place, digest, &mut out)?;
    push_parts(alloc, parts, &mut out)?;
    Ok(out)
}
