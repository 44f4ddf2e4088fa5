ghost use Rattle.std.specs.Prelude.{◌≡◌};
ghost use Rattle.message_defs.specs.Spelling.{IsStatement};
ghost use Rattle.group_defs.specs.Hearing.{is_valid};
ghost use Rattle.stmt_codec.specs.Views.{stmt, claim as claim_of};
ghost use Rattle.claim_pool.specs.Settings.{as_setting};

use rp_base::{GroupId, Roster, Scheme};
use stmt_codec::{BODY_BYTES, Claim};

/// Whether the signature is valid under the signer's key in the roster, on the body of the claim in this group. None is valid
/// of a signer that has no key there. The statement is in its ranges (docs/FORMATS.md, «Statements»).
pub fn is_signed<V: Scheme>(scheme: &V, roster: &Roster, group: &GroupId, claim: &Claim<'_>) -> bool
    requires { IsStatement (stmt claim.now.statement) }
    ensures { result ≡ is_valid (as_setting (V.valid scheme.now) group.now roster.now) (claim_of claim.now) }
{
    let Some(key) = roster.key(claim.signer) else {
        return false;
    };
    let mut body = [0; BODY_BYTES];
    let len = stmt_codec::body_into(group, claim.signer, &claim.statement, &mut body);
    scheme.verify(key, &body[..len], claim.signature)
}
