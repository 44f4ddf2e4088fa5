//! What a snapshot has of one process.
ghost use Rattle.std.specs.Prelude.{◌≡◌, ◌++◌, length, IfOk, OnOk};
ghost use Rattle.std.specs.Int.{w64, to_be_bytes};
ghost use Rattle.byte_defs.specs.Fields.{four_bytes as four_of};
ghost use Rattle.image_defs.specs.Spelling.{image_bytes};
ghost use Rattle.snapshot_rp.specs.Views.{image as image_as};
ghost use Rattle.node_snapshots.specs.Parts.{part_as, part_of};

use rp_base::NoMemory;
use snapshot_rp::{Image, write_snapshot};
use std::alloc::Global;

/// The most conflicts that an image has: one of each process.
const MOST_CONFLICTS: usize = 64;

/// What a snapshot has of one process.
#[derive(Drop)]
pub struct Part {
    /// How many entries it has in the journal.
    pub entries: u64,

    /// The process, as it is after them.
    pub image: Image,
}

// The last four of a length's bytes.
fn four_bytes(len: usize) -> [u8; 4]
    ensures { result ≡ four_of len }
{
    let [_, _, _, _, highest, high, low, lowest] = (len as u64).to_be_bytes();
    [highest, high, low, lowest]
}

// The bytes of the image.
fn image_text(alloc: Global, image: &Image) -> Result<Vec<u8>, NoMemory>
    ensures { IfOk result (λ bytes. bytes.items ≡ image_bytes (image_as image.now)) }
{
    if image.conflicts.len() > MOST_CONFLICTS {
        return Err(NoMemory);
    }
    let mut bytes = Vec::new(alloc);
    write_snapshot(image, &mut bytes)?;
    Ok(bytes)
}

// The bytes of the image after their length.
fn push_image(out: &mut Vec<u8>, image: &[u8]) -> Result<(), NoMemory>
    ensures { OnOk result (out.new.items ≡ out.old.items ++ (four_of (length image.now) ++ image.now)) }
{
    out.extend_from_slice(&four_bytes(image.len()))?;
    out.extend_from_slice(image)?;
    Ok(())
}

// How many entries, and the bytes of the image after their length.
fn push_fields(out: &mut Vec<u8>, entries: u64, image: &[u8]) -> Result<(), NoMemory>
    ensures { OnOk result (out.new.items
        ≡ out.old.items ++ (to_be_bytes w64 entries ++ (four_of (length image.now) ++ image.now))) }
{
    out.extend_from_slice(&entries.to_be_bytes())?;
    push_image(out, image)
}

/// Appends what a snapshot has of the process.
///
/// # Errors
/// [`NoMemory`].
pub(crate) fn push_part(alloc: Global, part: &Part, out: &mut Vec<u8>) -> Result<(), NoMemory>
    ensures { OnOk result (out.new.items ≡ out.old.items ++ part_of (part_as part.now)) }
{
    let bytes = image_text(alloc, &part.image)?;
    push_fields(out, part.entries, bytes.as_slice())
}
