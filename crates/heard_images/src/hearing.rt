//! A list of claims, heard one after the other.
ghost use Rattle.std.specs.Prelude.{◌≡◌, ◌↔◌, true, [], ◌∷◌, length, is_some, IfOk, IfSome, IsTrue};
ghost use Rattle.message_defs.specs.Spelling.{IsClaim};
ghost use Rattle.group_defs.specs.Process.{Setting, Process};
ghost use Rattle.group_defs.specs.Certified.{number_of_members};
ghost use Rattle.group_defs.specs.Hearing.{Heard, verdict};
ghost use Rattle.image_defs.specs.Kept.{AreHeard};
ghost use Rattle.member_events.specs.Below.{claim as claim_of};
ghost use Rattle.claim_hearing.specs.Hearing.{Shares};
ghost use Rattle.claim_pool.specs.Kept.{HasDelivered};
ghost use Rattle.heard_images.specs.Hearing.{AreNew, heard_in, with_more};

use claim_hearing::Judge;
use claim_pool::{Own, Pool, Verdict};
use member_events::{Claim, claim_len};
use rp_base::{NoMemory, Scheme};
use snapshot_rp::KeptClaim;
use std::alloc::Global;
use view_table::View;

// Hears the claim, and answers whether it is heard new.
fn hear_one<V: Scheme>(
    judge: &Judge<'_, V>,
    own: &Own,
    pool: &mut Pool,
    claim: &Claim<'_>,
) -> Result<bool, NoMemory>
    requires range { IsClaim (claim_of claim.now) }
    requires own { length own.now.counts.items ≡ number_of_members pool.old.pool }
    ensures new { (s : Setting) (p : Process) → Shares s (V.valid judge.now.scheme.now) judge.now.group.now judge.now.roster.now
        → HasDelivered own.now p → p.pool ≡ pool.old.pool
        → IfOk result (λ b. IsTrue b ↔ (verdict s p (claim_of claim.now) ≡ Heard)) }
    ensures heard { IfOk result (λ b. b ≡ true → pool.new.pool ≡ with_more pool.old.pool (claim_of claim.now ∷ [])) }
{
    pool.reserve(1, claim_len(claim))?;
    match pool.take(judge.scheme, judge.roster, judge.group, own, claim) {
        Verdict::Heard => Ok(true),
        _ => Ok(false),
    }
}

// Hears the claims up to the first that is not heard new, and answers whether there is none.
fn hear_each<V: Scheme>(
    judge: &Judge<'_, V>,
    own: &Own,
    pool: &mut Pool,
    claims: &[KeptClaim],
) -> Result<bool, NoMemory>
    requires own { length own.now.counts.items ≡ number_of_members pool.old.pool }
    ensures new { (s : Setting) (p : Process) → Shares s (V.valid judge.now.scheme.now) judge.now.group.now judge.now.roster.now
        → HasDelivered own.now p → p.pool ≡ pool.old.pool → IfOk result (λ b. IsTrue b ↔ AreNew s p claims.now) }
    ensures heard { IfOk result (λ b. b ≡ true → pool.new.pool ≡ with_more pool.old.pool claims.now) }
{
    for kept in claims {
        let claim = kept.claim();
        let is_new = hear_one(judge, own, pool, &claim)?;
        if !is_new {
            return Ok(false);
        }
    }
    Ok(true)
}

/// The pool in which these claims of the view are heard, in this order, by a process that has delivered there what `own` says. Each
/// signature is verified once. None exactly where the claims are no heard list of it: one is of another view, names who is no member,
/// is beyond the window, is not valid, or is of one signer and slot with a claim before it. `own` has an entry for each member.
pub fn hear_list<V: Scheme>(
    alloc: Global,
    judge: &Judge<'_, V>,
    own: &Own,
    view: View,
    claims: &[KeptClaim],
) -> Result<Option<Pool>, NoMemory>
    requires own { length own.now.counts.items ≡ length view.members }
    ensures heard { IfOk result (λ r. IfSome r (λ pool. pool.pool ≡ heard_in view claims.now)) }
    ensures exact { (s : Setting) (p : Process) → Shares s (V.valid judge.now.scheme.now) judge.now.group.now judge.now.roster.now
        → HasDelivered own.now p → p.pool ≡ heard_in view claims.now
        → IfOk result (λ r. IsTrue (is_some r) ↔ AreHeard s p) }
{
    let mut pool = Pool::new(alloc, view)?;
    let are_new = hear_each(judge, own, &mut pool, claims)?;
    if are_new { Ok(Some(pool)) } else { Ok(None) }
}
