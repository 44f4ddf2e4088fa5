ghost use Rattle.std.specs.Prelude.{◌≡◌};
ghost use Rattle.group_defs.specs.Hearing as hearing;
ghost use Rattle.claim_pool.specs.Settings.{as_setting};

use claim_pool::is_signed;
use rp_base::{GroupId, Roster, Scheme};
use snapshot_rp::KeptClaim;

/// Whether the signature of the claim is valid under its signer's key.
pub fn is_valid<V: Scheme>(scheme: &V, roster: &Roster, group: &GroupId, claim: &KeptClaim) -> bool
    ensures { result ≡ hearing.is_valid (as_setting (V.valid scheme.now) group.now roster.now) claim.now }
{
    is_signed(scheme, roster, group, &claim.claim())
}
