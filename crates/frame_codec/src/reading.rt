//! Frames read from bytes, with the first fault from the left, as `layout` shows them.
ghost use Rattle.std.specs.Prelude.{◌≡◌, IfOk, Ok};
ghost use Rattle.byte_defs.specs.Reads.{Gives, rest_of};
ghost use Rattle.message_defs.specs.Frames as plain;
ghost use Rattle.message_defs.specs.Frames.{IsFrame, frame_bytes, signature_at, signatures_at, group_at, groups_at, want_at, frame_of};
ghost use Rattle.frame_codec.specs.Views.{group_view, groups_left, frame_view};

use crate::groups::{FrameView, Group, Groups, Signatures};
use crate::layout::{BUNDLE, FRAME_BYTES, GROUP_SIGNATURES, PROOF, SIGNATURE_BYTES, VERSION, WANT};
use byte_fields::{bytes_at, u8_at, u16_at};
use message_defs::FrameFault;

// One signature, whose signer is at least this one, and the bytes after it.
#[tactic(auto, unfolding(message_defs::specs::Frames::signature_at))]
pub(crate) fn read_signature(least: u16, bytes: &[u8]) -> Result<((u8, &[u8]), &[u8]), FrameFault>
    ensures { Gives (λ x. ((x.0.0, x.0.1.now), x.1.now)) result (signature_at least bytes.now) }
{
    let (signer, rest) = u8_at(bytes, FrameFault::Short)?;
    if (signer as u16) < least {
        return Err(FrameFault::Unordered);
    }
    let (len, rest) = u16_at(rest, FrameFault::Short)?;
    if len > SIGNATURE_BYTES {
        return Err(FrameFault::Length);
    }
    let (signature, rest) = bytes_at(rest, len as usize, FrameFault::Length)?;
    Ok(((signer, signature), rest))
}

// The bytes after `count` signatures of rising signers.
fn skip_signatures(count: u8, bytes: &[u8]) -> Result<&[u8], FrameFault>
    ensures { Gives (λ r. r.now) result (rest_of (signatures_at count 0 bytes.now)) }
{
    let mut least = 0;
    let mut rest = bytes;
    for _ in 0..count {
        let ((signer, _), after) = read_signature(least, rest)?;
        least = signer as u16 + 1;
        rest = after;
    }
    Ok(rest)
}

// One group, and the bytes after it.
#[tactic(auto, unfolding(message_defs::specs::Frames::group_at))]
pub(crate) fn read_group(bytes: &[u8]) -> Result<(Group<'_>, &[u8]), FrameFault>
    ensures { Gives (λ x. (group_view x.0, x.1.now)) result (group_at bytes.now) }
{
    let (len, rest) = u16_at(bytes, FrameFault::Short)?;
    let (statement, rest) = bytes_at(rest, len as usize, FrameFault::Length)?;
    let (count, rest) = u8_at(rest, FrameFault::Short)?;
    if count == 0 || count > GROUP_SIGNATURES {
        return Err(FrameFault::Count);
    }
    let after = skip_signatures(count, rest)?;
    let signatures = Signatures {
        left: count,
        least: 0,
        bytes: rest,
    };
    Ok((
        Group {
            statement,
            signatures,
        },
        after,
    ))
}

// The bytes after `count` groups.
fn skip_groups(count: u8, bytes: &[u8]) -> Result<&[u8], FrameFault>
    ensures { Gives (λ r. r.now) result (rest_of (groups_at count bytes.now)) }
{
    let mut rest = bytes;
    for _ in 0..count {
        let (_, after) = read_group(rest)?;
        rest = after;
    }
    Ok(rest)
}

// The groups to the end of the bytes.
#[tactic(auto, unfolding(message_defs::specs::Frames::all_groups))]
fn read_groups(bytes: &[u8]) -> Result<Groups<'_>, FrameFault>
    ensures { Gives groups_left result (plain.all_groups bytes.now) }
{
    let (count, rest) = u8_at(bytes, FrameFault::Short)?;
    if count == 0 {
        return Err(FrameFault::Count);
    }
    let after = skip_groups(count, rest)?;
    if !after.is_empty() {
        return Err(FrameFault::Trailing);
    }
    Ok(Groups {
        left: count,
        bytes: rest,
    })
}

// The fields of a Want to the end of the bytes.
#[tactic(auto, unfolding(message_defs::specs::Frames::want_at))]
fn read_want(bytes: &[u8]) -> Result<FrameView<'_>, FrameFault>
    ensures { Gives frame_view result (want_at bytes.now) }
{
    let (view, rest) = u16_at(bytes, FrameFault::Short)?;
    let (place, rest) = u16_at(rest, FrameFault::Short)?;
    if !rest.is_empty() {
        return Err(FrameFault::Trailing);
    }
    Ok(FrameView::Want { view, place })
}

// What `split_frame` answers, by the reading of lists alone.
#[tactic(auto, unfolding(message_defs::specs::Frames::frame_of))]
fn split(bytes: &[u8]) -> Result<FrameView<'_>, FrameFault>
    ensures { Gives frame_view result (frame_of bytes.now) }
{
    if bytes.len() > FRAME_BYTES {
        return Err(FrameFault::Length);
    }
    let (version, rest) = u8_at(bytes, FrameFault::Short)?;
    if version != VERSION {
        return Err(FrameFault::Version);
    }
    let (kind, rest) = u8_at(rest, FrameFault::Short)?;
    match kind {
        BUNDLE => Ok(FrameView::Bundle(read_groups(rest)?)),
        PROOF => Ok(FrameView::Proof(read_groups(rest)?)),
        WANT => read_want(rest),
        _ => Err(FrameFault::Kind),
    }
}

/// The one frame that the bytes spell, all of the bytes, or the first fault from the left. It reads the bytes once,
/// takes no memory, and what it lends lives as long as the bytes.
pub fn split_frame(bytes: &[u8]) -> Result<FrameView<'_>, FrameFault>
    // What is read is a frame, and is spelled so.
    ensures found { IfOk result (λ f. IsFrame (frame_view f) × (bytes.now ≡ frame_bytes (frame_view f))) }

    // What is spelled so is read.
    ensures only { (f : plain.FrameView) → IsFrame f → bytes.now ≡ frame_bytes f → Gives frame_view result (Ok f) }

    // Which fault it is.
    ensures exact { Gives frame_view result (frame_of bytes.now) }
{
    split(bytes)
}
