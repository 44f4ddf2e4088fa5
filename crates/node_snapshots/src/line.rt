//! The line of a snapshot.
ghost use Rattle.std.specs.Prelude.{◌≡◌, ◌∷◌, [], IfOk, codes};
ghost use Rattle.std.specs.Fmt.{decimal};
ghost use Rattle.hex.specs.Hex.{encode_lower};
ghost use Rattle.text_defs.specs.Words.{line_text};
ghost use Rattle.journal_defs.specs.declared.Version.{Version};
ghost use Rattle.node_defs.specs.Casts.{Beginning, cast_of};
ghost use Rattle.node_defs.specs.Nodes.{Node};
ghost use Rattle.node_defs.specs.Snapshots as plain;
ghost use Rattle.node_snapshots.specs.Parts.{ArePartsOf};

use crate::part::Part;
use crate::whole::snapshot_text;
use kit_file::Kit;
use rp_base::NoMemory;
use std::alloc::Global;
use text_codec::{push_hex, push_number};

const MOST_BYTES: usize = 8_388_608;

fn large_line(alloc: Global, len: usize) -> Result<Vec<u8>, NoMemory>
    ensures { IfOk result (λ line. line.items ≡ line_text (codes "snap" ∷ codes "large" ∷ decimal len ∷ [])) }
{
    let mut line = b"snap large ".to_vec(alloc)?;
    push_number(&mut line, len as u64)?;
    line.push(b'\n')?;
    Ok(line)
}

fn hex_line(alloc: Global, bytes: &[u8]) -> Result<Vec<u8>, NoMemory>
    ensures { IfOk result (λ line. line.items ≡ line_text (codes "snap" ∷ encode_lower bytes.now ∷ [])) }
{
    let mut line = b"snap ".to_vec(alloc)?;
    push_hex(&mut line, bytes)?;
    line.push(b'\n')?;
    Ok(line)
}

// The line of these bytes, or of their number where they are more than a line holds.
#[tactic(auto, unfolding(node_defs::specs::Snapshots::most_snapshot_bytes))]
fn line_of(alloc: Global, bytes: &[u8]) -> Result<Vec<u8>, NoMemory>
    ensures { IfOk result (λ line. line.items ≡ plain.snap_line_of bytes.now) }
{
    if bytes.len() > MOST_BYTES {
        large_line(alloc, bytes.len())
    } else {
        hex_line(alloc, bytes)
    }
}

/// The line of the snapshot of a node with this kit: `snap HEX`, or `snap large LENGTH` where the snapshot has over 8,388,608 bytes, with its
/// line feed. There is a part for each hosted process, by rising number. The closed gate of the node's journal is at `place`, and SHA-256 of
/// the bytes before it is given.
///
/// # Errors
/// [`NoMemory`], also where an image has over 64 conflicts: a member has one of each process at most.
pub fn snap_line(
    alloc: Global,
    kit: &Kit,
    parts: &[Part],
    place: u64,
    digest: &[u8; 32],
) -> Result<Vec<u8>, NoMemory>
    ensures { (version : Version) (b : Beginning) (n : Node) → n.gate ≡ place → ArePartsOf kit.now b n parts.now
        → IfOk result (λ line. line.items ≡ plain.snap_line (cast_of kit.now version) b n digest.now) }
{
    let bytes = snapshot_text(alloc, kit, parts, place, digest)?;
    line_of(alloc, bytes.as_slice())
}
