//! The views that were left before the last one.
ghost use Rattle.std.specs.Prelude.{◌≡◌, ◌↔◌, ◌+◌, ◌++◌, ◌∷◌, [], ℕ, length, map, None, Some, true, is_some, IfOk, IfSome, OnOk, IsTrue};
ghost use Rattle.message_defs.specs.Spelling.{IsClaim};
ghost use Rattle.message_defs.specs.Statements.{Ready};
ghost use Rattle.group_defs.specs.Process.{Setting};
ghost use Rattle.group_defs.specs.Certified as certified;
ghost use Rattle.group_defs.specs.Views.{next_view};
ghost use Rattle.image_defs.specs.Images.{view_behind};
ghost use Rattle.image_defs.specs.Kept.{AreLeft, IsLeft};
ghost use Rattle.rp_base.specs.Views.{value as value_of, update as update_of};
ghost use Rattle.stmt_codec.specs.Views.{claim as claim_of};
ghost use Rattle.claim_index.specs.Kept.{empty_pool};
ghost use Rattle.reliable_mcast.specs.Certificates.{all_signed, IsRanged};
ghost use Rattle.snapshot_rp.specs.Views.{left_view};
ghost use Rattle.restored_past.specs.Hearing.{with_all};
ghost use Rattle.restored_past.specs.Keeping.{KeepsOne};

use image_parts::{Pool, is_certified};
use reliable_mcast::Archive;
use rp_base::NoMemory;
use snapshot_rp::{KeptClaim, LeftView};
use std::alloc::Global;
use stmt_codec::{Claim, Statement, claim_len};
use view_table::{View, next};

/// What is kept of the views that were left before one, and that view.
#[derive(Drop)]
pub struct Past {
    pub archive: Archive,
    pub view: View,
}

// Hears the claim, where none of its signer on its slot is heard. No signature is verified.
fn hear(pool: &mut Pool, claim: &Claim<'_>) -> Result<(), NoMemory>
    requires { IsClaim (claim_of claim.now) }
    ensures { OnOk result (pool.new.pool ≡ with_all pool.old.pool (claim_of claim.now ∷ [])) }
{
    pool.reserve(1, claim_len(claim))?;
    pool.hear_own(claim);
    Ok(())
}

// The same, with the claim as an image has it.
#[tactic(auto, using(crate::proofs::Certain::ranged_more, crate::proofs::Certain::view_stays))]
fn hear_kept(pool: &mut Pool, kept: &KeptClaim) -> Result<(), NoMemory>
    ensures heard { OnOk result (pool.new.pool ≡ with_all pool.old.pool (kept.now ∷ [])) }
    ensures ranged { IsRanged pool.old.pool → OnOk result (IsRanged pool.new.pool) }
    ensures view { OnOk result (pool.new.pool.view ≡ pool.old.pool.view) }
{
    let Claim {
        signer,
        statement,
        signature,
    } = kept.claim();

    // The type is named, since the checker does not know it here otherwise.
    let statement: Statement<'_> = statement;
    let claim = Claim {
        signer,
        statement,
        signature,
    };
    hear(pool, &claim)
}

// Hears the claims in order, each where none of its signer on its slot is heard.
fn hear_each(pool: &mut Pool, claims: &[KeptClaim]) -> Result<(), NoMemory>
    ensures heard { OnOk result (pool.new.pool ≡ with_all pool.old.pool claims.now) }
    ensures ranged { IsRanged pool.old.pool → OnOk result (IsRanged pool.new.pool) }
    ensures view { OnOk result (pool.new.pool.view ≡ pool.old.pool.view) }
{
    for kept in claims {
        hear_kept(pool, kept)?;
    }
    Ok(())
}

/// Keeps the view of the pool as the left one says that it was left, where its Ready is certified there; `begun` is then the pool.
pub(crate) fn keep(
    archive: &mut Archive,
    pool: &mut Pool,
    begun: Pool,
    left: &LeftView,
) -> Result<bool, NoMemory>
    requires range { IsRanged pool.old.pool }
    requires order { pool.old.pool.view.number ≡ length archive.old.commits }
    ensures exact { IfOk result (λ b. IsTrue b ↔ IsTrue (certified.is_certified pool.old.pool
        (Ready pool.old.pool.view.number left.now.rank (value_of left.now.value)))) }
    ensures kept { IfOk result (λ b. b ≡ true → KeepsOne archive.old archive.new pool.old.pool left.now.rank (value_of left.now.value)) }
    ensures begins { IfOk result (λ b. b ≡ true → pool.new ≡ begun) }
{
    let current = pool.view();
    let _members = current.members();
    if !is_certified(pool, left.rank, left.value) {
        return Ok(false);
    }
    let _older = archive.keep_view(pool, begun, (left.rank, left.value))?;
    Ok(true)
}

// Keeps the view of the pool, in which nothing is heard yet, as left by the claims of its commit certificate, and turns to the view that
// follows. False where they do not certify its Ready.
fn keep_by(
    alloc: Global,
    archive: &mut Archive,
    pool: &mut Pool,
    following: View,
    left: &LeftView,
) -> Result<bool, NoMemory>
    requires empty { pool.old.pool.heard ≡ [] }
    requires order { pool.old.pool.view.number ≡ length archive.old.commits }
    ensures exact { (s : Setting) → IsLeft s pool.old.pool.view (left_view left.now) → IfOk result (λ b. b ≡ true) }
    ensures commits { (s : Setting) → IsLeft s pool.old.pool.view (left_view left.now)
        → IfOk result (λ b. archive.new.commits ≡ archive.old.commits ++ all_signed left.now.commit.items ∷ []) }
    ensures next { IfOk result (λ b. b ≡ true → pool.new.pool ≡ empty_pool following) }
    ensures more { IfOk result (λ b. b ≡ true → length archive.new.commits ≡ length archive.old.commits + 1) }
{
    let current = pool.view();
    let _members = current.members();
    let begun = Pool::new(alloc, following)?;
    hear_each(pool, &left.commit)?;
    keep(archive, pool, begun, left)
}

// The same, with the view that follows by the update. False where none follows, too.
fn keep_by_commit(
    alloc: Global,
    archive: &mut Archive,
    pool: &mut Pool,
    left: &LeftView,
) -> Result<bool, NoMemory>
    requires empty { pool.old.pool.heard ≡ [] }
    requires order { pool.old.pool.view.number ≡ length archive.old.commits }
    ensures exact { (s : Setting) → IsLeft s pool.old.pool.view (left_view left.now) → IfOk result (λ b. b ≡ true) }
    ensures commits { (s : Setting) → IsLeft s pool.old.pool.view (left_view left.now)
        → IfOk result (λ b. archive.new.commits ≡ archive.old.commits ++ all_signed left.now.commit.items ∷ []) }
    ensures next { IfOk result (λ b. b ≡ true
        → pool.new.pool ≡ empty_pool (next_view pool.old.pool.view (update_of left.now.value.update))) }
    ensures more { IfOk result (λ b. b ≡ true → length archive.new.commits ≡ length archive.old.commits + 1) }
{
    match next(pool.view(), left.value.update) {
        Ok(following) => keep_by(alloc, archive, pool, following, left),
        Err(_) => Ok(false),
    }
}

// A copy, which takes no memory.
fn copied(view: &View) -> View
    ensures { result ≡ view.now }
{
    let Ok(copy) = view.clone() else {
        unreachable!()
    };
    copy
}

/// What is kept of these views, of which the first is the genesis view, each left by the claims of its commit certificate, and the view
/// after them. The signatures are taken for valid. None only where some view was not left so.
pub fn past_before(
    alloc: Global,
    genesis: View,
    left: &[LeftView],
) -> Result<Option<Past>, NoMemory>
    requires { genesis.number ≡ 0 }
    ensures some { (s : Setting) → AreLeft s genesis (map left_view left.now) → IfOk result (λ r. IsTrue (is_some r)) }
    ensures view { IfOk result (λ r. IfSome r (λ past. past.view ≡ view_behind genesis (map left_view left.now))) }
    ensures number { IfOk result (λ r. IfSome r (λ past. past.view.number ≡ length past.archive.commits)) }
    ensures commits { (s : Setting) → AreLeft s genesis (map left_view left.now)
        → IfOk result (λ r. IfSome r (λ past. past.archive.commits ≡ map (λ l. all_signed l.commit) (map left_view left.now))) }
{
    let mut archive = Archive::new(alloc)?;
    let mut pool = Pool::new(alloc, genesis)?;
    for one in left {
        let is_kept = keep_by_commit(alloc, &mut archive, &mut pool, one)?;
        if !is_kept {
            return Ok(None);
        }
    }
    let view = copied(pool.view());
    Ok(Some(Past { archive, view }))
}
