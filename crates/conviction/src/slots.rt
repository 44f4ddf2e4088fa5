//! Claims on one slot, before any signature is looked at.
ghost use Rattle.std.specs.Prelude.{◌≡◌};
ghost use Rattle.std.specs.List.{list_any};
ghost use Rattle.stmt_codec.specs.Views.{claim as claim_of};
ghost use Rattle.conviction_defs.specs.Convictions as defs;
ghost use Rattle.conviction.specs.Own.{kept};

use crate::own::Own;
use stmt_codec::{Claim, conflicts, is_same_slot};

/// Whether the claim is on the slot of the other.
pub(crate) fn is_on_slot(claim: &Claim<'_>, other: &Claim<'_>) -> bool
    ensures { result ≡ defs.is_on_slot (claim_of other.now) (claim_of claim.now) }
{
    is_same_slot(&claim.statement, &other.statement)
}

/// Whether the claims are on one slot and say different things.
pub(crate) fn is_conflict(claim: &Claim<'_>, other: &Claim<'_>) -> bool
    ensures { result ≡ defs.is_conflict (claim_of other.now) (claim_of claim.now) }
{
    conflicts(&claim.statement, &other.statement)
}

/// Whether one of these claims is on the slot of the claim.
pub(crate) fn has_slot(claims: &[Own<'_>], claim: &Claim<'_>) -> bool
    ensures { result ≡ list_any (λ own. defs.is_on_slot (claim_of claim.now) (kept own)) claims.now }
{
    claims.iter().any(|own| is_on_slot(&own.0, claim))
}

/// Whether one of these claims is on the slot of the claim and says something else.
pub(crate) fn has_other_content(claims: &[Own<'_>], claim: &Claim<'_>) -> bool
    ensures { result ≡ list_any (λ own. defs.is_conflict (claim_of claim.now) (kept own)) claims.now }
{
    claims.iter().any(|own| is_conflict(&own.0, claim))
}
