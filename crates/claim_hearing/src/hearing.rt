ghost use Rattle.std.specs.Prelude.{◌≡◌, length, OnOk};
ghost use Rattle.std.specs.List.{AllByRecursion};
ghost use Rattle.message_defs.specs.Spelling.{IsClaim};
ghost use Rattle.message_defs.specs.Statements as plain;
ghost use Rattle.group_defs.specs.Process.{Setting, Process};
ghost use Rattle.group_defs.specs.Certified.{number_of_members, claim_on};
ghost use Rattle.group_defs.specs.Hearing as defs;
ghost use Rattle.stmt_codec.specs.Views.{stmt, claim as claim_of};
ghost use Rattle.stmt_codec.specs.Left.{claims_left};
ghost use Rattle.rule_laws.specs.Heard.{IsPool};
ghost use Rattle.claim_pool.specs.Kept.{HasDelivered};
ghost use Rattle.claim_hearing.specs.Hearing.{Shares, IsHeard};

use claim_lists::Conflicts;
use claim_pool::{Own, Pool, Verdict};
use rp_base::{GroupId, NoMemory, Roster, Scheme};
use stmt_codec::{Claim, Claims, SIGNATURE_BYTES, claim_len, slot_of};

/// By what claims are judged: the rule of signatures, the processes' keys, and the group that signatures are bound to.
#[derive(Clone, Copy)]
pub struct Judge<'a, V> {
    /// The rule of signatures.
    pub scheme: &'a V,

    /// The processes' keys.
    pub roster: &'a Roster,

    /// The group.
    pub group: &'a GroupId,
}

// Keeps the claim beside the heard one of its signer and slot, which says something else.
fn keep_conflict(pool: &Pool, conflicts: &mut Conflicts, claim: &Claim<'_>) -> Result<(), NoMemory>
    requires { IsClaim (claim_of claim.now) }
    ensures kept { (p : Process) → IsPool pool.now.pool → p.pool ≡ pool.now.pool → p.conflicts ≡ conflicts.old.pairs
        → OnOk result (conflicts.new.pairs ≡ defs.kept_conflicts p (claim_of claim.now)) }
    ensures marked { conflicts.new.marked ≡ conflicts.old.marked }
{
    let kind = claim.statement.kind();
    let slot = slot_of(&claim.statement);
    let Some(heard) = pool.heard_claim(claim.signer, kind, slot) else {
        return Ok(());
    };
    if heard.signature.len() > SIGNATURE_BYTES as usize {
        return Ok(());
    }
    conflicts.reserve(1, claim_len(&heard).max(claim_len(claim)))?;
    conflicts.keep(&heard, claim);
    Ok(())
}

// Hears one claim.
fn hear<V: Scheme>(
    judge: &Judge<'_, V>,
    own: &Own,
    pool: &mut Pool,
    conflicts: &mut Conflicts,
    claim: &Claim<'_>,
) -> Result<(), NoMemory>
    requires range { IsClaim (claim_of claim.now) }
    requires own { length own.now.counts.items ≡ number_of_members pool.old.pool }
    ensures heard { (s : Setting) (p : Process) → Shares s (V.valid judge.now.scheme.now) judge.now.group.now judge.now.roster.now
        → IsPool pool.old.pool → HasDelivered own.now p → p.pool ≡ pool.old.pool → p.conflicts ≡ conflicts.old.pairs
        → OnOk result (IsHeard (defs.hear s p (claim_of claim.now)) pool.new.pool conflicts.new.pairs) }
    ensures view { pool.new.pool.view ≡ pool.old.pool.view }
    ensures marked { pool.new.marked ≡ pool.old.marked }
    ensures marked_pairs { conflicts.new.marked ≡ conflicts.old.marked }
{
    pool.reserve(1, claim_len(claim))?;
    match pool.take(judge.scheme, judge.roster, judge.group, own, claim) {
        Verdict::Conflict => keep_conflict(pool, conflicts, claim),
        _ => Ok(()),
    }
}

/// Hears the claims in their order: each gets its verdict, what is heard is in the pool, and the first conflict of each signer
/// is kept. `own` has an entry for each member. Where memory runs out for a claim, those before it are heard.
pub fn hear_all<V: Scheme>(
    judge: &Judge<'_, V>,
    own: &Own,
    pool: &mut Pool,
    conflicts: &mut Conflicts,
    claims: Claims<'_>,
) -> Result<(), NoMemory>
    requires range { AllByRecursion IsClaim (claims_left claims) }
    requires own { length own.now.counts.items ≡ number_of_members pool.old.pool }
    ensures heard { (s : Setting) (p : Process) → Shares s (V.valid judge.now.scheme.now) judge.now.group.now judge.now.roster.now
        → IsPool pool.old.pool → HasDelivered own.now p → p.pool ≡ pool.old.pool → p.conflicts ≡ conflicts.old.pairs
        → OnOk result (IsHeard (defs.hear_all s p (claims_left claims.entry)) pool.new.pool conflicts.new.pairs) }
    ensures view { pool.new.pool.view ≡ pool.old.pool.view }
    ensures marked { pool.new.marked ≡ pool.old.marked }
    ensures marked_pairs { conflicts.new.marked ≡ conflicts.old.marked }
{
    let mut left = claims;
    'claims: while let Some(claim) = left.next() {
        hear(judge, own, pool, conflicts, &claim)?;
    }
    Ok(())
}
