//! Conflicts of valid claims on one slot. Here signatures are verified, each at most once.
ghost use Rattle.std.specs.Prelude.{◌≡◌, ◌&&◌};
ghost use Rattle.std.specs.List.{list_any, AllByRecursion};
ghost use Rattle.message_defs.specs.Spelling.{IsClaim, IsStatement};
ghost use Rattle.group_defs.specs.Hearing.{is_valid};
ghost use Rattle.stmt_codec.specs.Views.{claim as claim_of, stmt};
ghost use Rattle.claim_pool.specs.Settings.{as_setting};
ghost use Rattle.conviction_defs.specs.Convictions.{has_conflict, is_conflict as is_conflict_of, is_on_slot as is_on_slot_of};
ghost use Rattle.conviction.specs.Own.{all_kept};
ghost use Rattle.conviction.specs.Slots.{valid_on};

use crate::own::Own;
use crate::slots::{is_conflict, is_on_slot};
use claim_pool::is_signed;
use rp_base::{GroupId, Roster, Scheme};
use stmt_codec::Claim;

// Whether the claim is valid and conflicts with the other. The signature of one that does not conflict is left alone.
fn contradicts<V: Scheme>(
    scheme: &V,
    roster: &Roster,
    group: &GroupId,
    claim: &Claim<'_>,
    other: &Claim<'_>,
) -> bool
    requires { IsStatement (stmt claim.now.statement) }
    ensures { result ≡ (is_conflict_of (claim_of other.now) (claim_of claim.now)
        && is_valid (as_setting (V.valid scheme.now) group.now roster.now) (claim_of claim.now)) }
{
    is_conflict(claim, other) && is_signed(scheme, roster, group, claim)
}

// Whether one of these claims is valid and conflicts with the claim.
fn any_contradicts<V: Scheme>(
    scheme: &V,
    roster: &Roster,
    group: &GroupId,
    claims: &[Own<'_>],
    claim: &Claim<'_>,
) -> bool
    requires { AllByRecursion IsClaim (all_kept claims.now) }
    ensures { result ≡ list_any
        (λ c. is_conflict_of (claim_of claim.now) c && is_valid (as_setting (V.valid scheme.now) group.now roster.now) c)
        (all_kept claims.now) }
{
    for own in claims {
        if contradicts(scheme, roster, group, &own.0, claim) {
            return true;
        }
    }
    false
}

// Whether the claim is valid and on the slot of the other. The signature of one that is on another slot is left alone.
fn is_valid_on<V: Scheme>(
    scheme: &V,
    roster: &Roster,
    group: &GroupId,
    claim: &Claim<'_>,
    other: &Claim<'_>,
) -> bool
    requires { IsStatement (stmt claim.now.statement) }
    ensures { result ≡ (is_on_slot_of (claim_of other.now) (claim_of claim.now)
        && is_valid (as_setting (V.valid scheme.now) group.now roster.now) (claim_of claim.now)) }
{
    is_on_slot(claim, other) && is_signed(scheme, roster, group, claim)
}

/// Whether two valid ones of these claims on the slot of the claim conflict: the first valid one there with one that comes after it.
pub(crate) fn slot_convicts<V: Scheme>(
    scheme: &V,
    roster: &Roster,
    group: &GroupId,
    claims: &[Own<'_>],
    on: &Claim<'_>,
) -> bool
    requires { AllByRecursion IsClaim (all_kept claims.now) }
    ensures { result ≡ has_conflict
        (valid_on (as_setting (V.valid scheme.now) group.now roster.now) (claim_of on.now) (all_kept claims.now)) }
{
    for place in 0..claims.len() {
        let claim = &claims[place].0;
        if is_valid_on(scheme, roster, group, claim, on) {
            let (_, rest) = claims.split_at(place);
            return any_contradicts(scheme, roster, group, rest, claim);
        }
    }
    false
}
