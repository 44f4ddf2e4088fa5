ghost use Rattle.std.specs.Prelude.{◌≡◌, ◌+◌, ◌≤◌, length, take, drop, OnOk, OnErr};
ghost use Rattle.rp_devices.specs.Held.{put};

use std::alloc::AllocError;

// Puts a piece over the bytes from a place on, and past the end.
pub(crate) fn put_over(bytes: &mut Vec<u8>, at: usize, piece: &[u8]) -> Result<(), AllocError>
    requires { at ≤ length bytes.old.items }
    ensures ok { OnOk result (bytes.new.items ≡ put bytes.old.items at piece.now) }
    ensures err { OnErr result (bytes.new.items ≡ bytes.old.items) }
{
    let room = bytes.len() - at;
    if piece.len() <= room {
        bytes[at..at + piece.len()].copy_from_slice(piece);
        return Ok(());
    }
    let (over, past) = piece.split_at(room);
    bytes.extend_from_slice(past)?;
    bytes[at..at + room].copy_from_slice(over);
    Ok(())
}

// Fills `into` with the bytes from a place on.
pub(crate) fn take_from(bytes: &[u8], at: usize, into: &mut [u8])
    requires { at + length into.old ≤ length bytes.now }
    ensures { into.new ≡ take (length into.old) (drop at bytes.now) }
{
    into.copy_from_slice(&bytes[at..at + into.len()]);
}
