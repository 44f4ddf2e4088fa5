//! A Bundle of one claim (docs/FORMATS.md, «Frames»).
ghost use Rattle.std.specs.Prelude.{◌≡◌, ◌≤◌, length, IfOk};
ghost use Rattle.message_defs.specs.Packing.{signed};
ghost use Rattle.replay_cast.specs.Liars.{bundle_of};

use frame_codec::{BUNDLE, FRAME_BYTES, FrameWriter};
use member_events::Payload;
use rp_base::{NoMemory, Pid};
use std::alloc::Global;

/// The Bundle of a statement's bytes, signed by one process.
pub fn bundle(
    alloc: Global,
    statement: &[u8],
    signer: Pid,
    signature: &[u8],
) -> Result<Payload, NoMemory>
    requires statement { length statement.now ≤ 1032 }
    requires signature { length signature.now ≤ 16384 }
    ensures { IfOk result (λ frame. frame ≡ bundle_of (signed statement.now signer signature.now)) }
{
    let mut writer = FrameWriter::new(alloc, BUNDLE, FRAME_BYTES)?;
    if !writer.add(statement, signer.get(), signature) {
        unreachable!();
    }
    Ok(Payload::from_vec(Vec::from_slice(alloc, writer.frame())?))
}
