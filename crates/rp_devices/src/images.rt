ghost use Rattle.std.specs.Prelude.{◌≡◌, IfOk, OnOk};
ghost use Rattle.rp_devices.specs.Held.{put, smear_of, remains, opened, after, ChangesBoth};

use crate::bytes::put_over;
use crate::change::Change;
use std::alloc::{AllocError, Global};

// What is kept after these changes, with this byte in each place that was written since.
pub(crate) fn remains_of(
    alloc: Global,
    first: &[u8],
    log: &[Change],
    byte: Option<u8>,
) -> Result<Vec<u8>, AllocError>
    ensures { IfOk result (λ image. image.items ≡ remains byte (after (opened first.now) log.now)) }
{
    let mut file = first.to_vec(alloc)?;
    let mut image = first.to_vec(alloc)?;
    for change in log {
        change_both(alloc, &mut file, &mut image, change, byte)?;
    }
    Ok(image)
}

// One change more, to the file and to what is kept of it.
fn change_both(
    alloc: Global,
    file: &mut Vec<u8>,
    image: &mut Vec<u8>,
    change: &Change,
    byte: Option<u8>,
) -> Result<(), AllocError>
    ensures { OnOk result (ChangesBoth byte change.now file.old.items image.old.items file.new.items image.new.items) }
{
    match change {
        Change::Wrote { at, piece } => {
            put_anywhere(file, *at, piece)?;
            smear(alloc, image, *at, piece.len(), byte)?;
            Ok(())
        }
        Change::Synced => {
            *image = file.to_vec(alloc)?;
            Ok(())
        }
    }
}

fn put_anywhere(bytes: &mut Vec<u8>, at: u64, piece: &[u8]) -> Result<(), AllocError>
    ensures { OnOk result (bytes.new.items ≡ put bytes.old.items at piece.now) }
{
    if at as usize <= bytes.len() {
        put_over(bytes, at as usize, piece)
    } else {
        bytes.extend_from_slice(piece)
    }
}

fn smear(
    alloc: Global,
    bytes: &mut Vec<u8>,
    at: u64,
    len: usize,
    byte: Option<u8>,
) -> Result<(), AllocError>
    ensures { OnOk result (bytes.new.items ≡ smear_of byte (at, len) bytes.old.items) }
{
    let Some(byte) = byte else {
        return Ok(());
    };
    if at as usize > bytes.len() {
        return Ok(());
    }
    let piece = vec![in alloc; byte; len]?;
    put_over(bytes, at as usize, &piece)
}
