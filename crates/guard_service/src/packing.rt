//! Two claims in one frame.
ghost use Rattle.std.specs.Prelude.{◌≡◌, ◌≤◌, ◌&&◌, ◌∷◌, [], length, true, IfOk};
ghost use Rattle.message_defs.specs.Packing.{add, fits, signed_of};
ghost use Rattle.message_defs.specs.Spelling.{IsClaim};
ghost use Rattle.group_defs.specs.Sending as plain;
ghost use Rattle.group_defs.specs.Sending.{frames_of};
ghost use Rattle.member_events.specs.Below.{claim as claim_of};
ghost use Rattle.guard_service.specs.Accusing.{Packs};
ghost use Rattle.guard_service.specs.Ranges.{claim_fits};

use crate::ranges::can_be_carried;
use frame_codec::{BUNDLE, FRAME_BYTES, FrameWriter};
use member_events::{Claim, Payload, STATEMENT_BYTES, spell_into};
use rp_base::NoMemory;
use std::alloc::Global;

// Puts the claim into a frame that has room for it.
fn put(writer: &mut FrameWriter, claim: &Claim<'_>)
    requires range { IsClaim (claim_of claim.now) }
    requires room { fits writer.old.room (add writer.old.groups (signed_of (claim_of claim.now))) ≡ true }
    ensures { writer.new ≡ record writer.old { groups = add writer.old.groups (signed_of (claim_of claim.now)) } }
{
    let mut statement = [0; STATEMENT_BYTES];
    let len = spell_into(&claim.statement, &mut statement);
    if !writer.add(&statement[..len], claim.signer.get(), claim.signature) {
        unreachable!();
    }
}

// The Bundle of two claims, the first one first, which fit into one frame.
fn pack_both(alloc: Global, first: &Claim<'_>, second: &Claim<'_>) -> Result<Payload, NoMemory>
    requires first { IsClaim (claim_of first.now) }
    requires second { IsClaim (claim_of second.now) }
    ensures frame { IfOk result (λ frame. frames_of (plain.Bundle (claim_of first.now ∷ claim_of second.now ∷ [])) ≡ frame ∷ []) }
    ensures short { IfOk result (λ frame. length frame ≤ 61000) }
{
    let mut writer = FrameWriter::new(alloc, BUNDLE, FRAME_BYTES)?;
    put(&mut writer, first);
    put(&mut writer, second);
    let bytes = Vec::from_slice(alloc, writer.frame())?;
    Ok(Payload::from_vec(bytes))
}

// Whether a frame can carry both.
fn can_both(first: &Claim<'_>, second: &Claim<'_>) -> bool
    ensures { result ≡ (claim_fits (claim_of first.now) && claim_fits (claim_of second.now)) }
{
    can_be_carried(first) && can_be_carried(second)
}

/// The Bundle of two claims, the first one first, in one frame; None exactly where a frame can't carry one of them.
///
/// # Errors
/// [`NoMemory`].
pub(crate) fn bundle_of(
    alloc: Global,
    first: &Claim<'_>,
    second: &Claim<'_>,
) -> Result<Option<Payload>, NoMemory>
    ensures { IfOk result (Packs (claim_of first.now) (claim_of second.now)) }
{
    if !can_both(first, second) {
        return Ok(None);
    }
    let frame = pack_both(alloc, first, second)?;
    Ok(Some(frame))
}
