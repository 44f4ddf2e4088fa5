//! Whether all that was handed over of correct processes is their own word.
ghost use Rattle.std.specs.Prelude.{◌≡◌};
ghost use Rattle.std.specs.List.{list_all, AllByRecursion};
ghost use Rattle.message_defs.specs.Spelling.{IsClaim};
ghost use Rattle.group_defs.specs.Family as defs;
ghost use Rattle.replay_defs.specs.Schedules.{Header};
ghost use Rattle.replay_defs.specs.Worlds as plain;
ghost use Rattle.replay_defs.specs.Worlds.{family_of};
ghost use Rattle.stmt_codec.specs.Left.{claims_left};
ghost use Rattle.stmt_codec.specs.Views.{claim as claim_of};
ghost use Rattle.replay_world.specs.Handing.{claims_of};
ghost use Rattle.replay_world.specs.Worlds.{Shows};
ghost use Rattle.replay_questions.specs.Owned.{is_owned, is_unhanded_or_owned};

use crate::frames::claims_in;
use crate::groups::is_frame_of_words;
use crate::words::is_word;
use claim_pool::is_signed;
use replay_world::{Sent, World};
use stmt_codec::{Claim, Claims, Payload};

// Whether the claim's signer is no correct process, or said its statement, or else its signature is not valid.
fn is_own(world: &World, claim: &Claim<'_>) -> bool
    requires { IsClaim (claim_of claim.now) }
    ensures { (h : Header) (v : plain.World) → Shows h world.now v → result ≡ is_owned (family_of h v) (claim_of claim.now) }
{
    is_word(world.players(), claim)
        || !is_signed(world.scheme(), world.roster(), world.group(), claim)
}

// Whether each of these claims is its signer's own.
fn are_own(world: &World, claims: Claims<'_>) -> bool
    requires { AllByRecursion IsClaim (claims_left claims) }
    ensures { (h : Header) (v : plain.World) → Shows h world.now v
        → result ≡ list_all (is_owned (family_of h v)) (claims_left claims.entry) }
{
    let mut left = claims;
    'claims: while let Some(claim) = left.next() {
        if !is_own(world, &claim) {
            return false;
        }
    }
    true
}

// Whether each claim of the bytes, as a frame, is its signer's own, found by reading the claims.
fn are_claims_own(world: &World, bytes: &[u8]) -> bool
    ensures { (h : Header) (v : plain.World) → Shows h world.now v → result ≡ list_all (is_owned (family_of h v)) (claims_of bytes.now) }
{
    match claims_in(bytes) {
        Some(claims) => are_own(world, claims),
        None => true,
    }
}

// Whether each claim of the bytes, as a frame, is its signer's own. Mostly all are their signers' words, and then no statement is read.
fn is_honest(world: &World, bytes: &[u8]) -> bool
    ensures { (h : Header) (v : plain.World) → Shows h world.now v → result ≡ list_all (is_owned (family_of h v)) (claims_of bytes.now) }
{
    is_frame_of_words(world.players(), bytes) || are_claims_own(world, bytes)
}

// Whether the frame was handed to nobody, or is honest.
fn is_honest_frame(world: &World, frame: &Sent) -> bool
    ensures { (h : Header) (v : plain.World) → Shows h world.now v → result ≡ is_unhanded_or_owned (family_of h v) frame.now }
{
    !frame.handed || is_honest(world, frame.bytes.bytes())
}

// Whether each of the frames that were handed over is honest.
fn are_honest_frames(world: &World, frames: &[Sent]) -> bool
    ensures { (h : Header) (v : plain.World) → Shows h world.now v → result ≡ list_all (is_unhanded_or_owned (family_of h v)) frames.now }
{
    for frame in frames {
        if !is_honest_frame(world, frame) {
            return false;
        }
    }
    true
}

// Whether all of these bytes, each as a frame, are honest.
fn are_honest(world: &World, raws: &[Payload]) -> bool
    ensures { (h : Header) (v : plain.World) → Shows h world.now v
        → result ≡ list_all (λ bytes. list_all (is_owned (family_of h v)) (claims_of bytes)) raws.now }
{
    for bytes in raws {
        if !is_honest(world, bytes.bytes()) {
            return false;
        }
    }
    true
}

/// Whether each valid claim that was handed over, if its signer is a correct process, is among what that one signed by the end. Frames that
/// were sent and handed to nobody are not looked at; a signature is checked only where the claim is not its signer's word.
pub fn honest(world: &World) -> bool
    ensures { (h : Header) (v : plain.World) → Shows h world.now v → result ≡ defs.honest (family_of h v) }
{
    are_honest_frames(world, world.frames()) && are_honest(world, world.raws())
}
