//! Who makes the claims of a frame.
ghost use Rattle.std.specs.Prelude.{◌≡◌, ℕ};
ghost use Rattle.byte_defs.specs.Members.{has};
ghost use Rattle.message_defs.specs.Claims as plain;
ghost use Rattle.frame_codec.specs.Views.{frame_view};
ghost use Rattle.member_events.specs.Below.{given, claims_left};
ghost use Rattle.guard_service.specs.Evidence.{makes_one};

use frame_codec::FrameView;
use member_events::{Claims, claims_of};
use rp_base::PidSet;

// All who make these claims.
fn signers_among(claims: Claims<'_>) -> PidSet
    ensures { (q : ℕ) → has result q ≡ makes_one (claims_left claims.entry) q }
{
    let mut signers = PidSet::new();
    let mut left = claims;
    'claims: while let Some(claim) = left.next() {
        signers.insert(claim.signer);
    }
    signers
}

/// All who make claims in the frame: nobody where it has a fault, or is a Want.
pub(crate) fn signers_of(frame: &FrameView<'_>) -> PidSet
    ensures { (q : ℕ) → has result q ≡ makes_one (given (plain.claims_of (frame_view frame.now))) q }
{
    match claims_of(frame) {
        Ok(claims) => signers_among(claims),
        Err(_) => PidSet::new(),
    }
}
