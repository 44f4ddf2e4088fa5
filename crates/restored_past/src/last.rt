//! The view that was left last.
ghost use Rattle.std.specs.Prelude.{◌≡◌, ◌↔◌, ◌≤◌, ◌&&◌, nat_le, ◌++◌, ◌∷◌, ℕ, [], length, true, Some, IfOk, OnOk, IsTrue};
ghost use Rattle.message_defs.specs.Statements.{Ready};
ghost use Rattle.group_defs.specs.Process.{Setting};
ghost use Rattle.group_defs.specs.Certified.{certificate};
ghost use Rattle.image_defs.specs.Kept.{IsLeft};
ghost use Rattle.rp_base.specs.Views.{value as value_of};
ghost use Rattle.reliable_mcast.specs.Certificates.{all_signed, IsRanged};
ghost use Rattle.snapshot_rp.specs.Views.{left_view};
ghost use Rattle.restored_past.specs.Keeping.{are_kept_at, is_kept_at, KeepsOne};

use crate::earlier::keep;
use image_parts::Pool;
use reliable_mcast::Archive;
use rp_base::NoMemory;
use snapshot_rp::{KeptClaim, LeftView};
use std::alloc::Global;
use view_table::View;

/// The most members of a view.
const MEMBERS: usize = 16;

// Whether the claim's signer and signature are those of the i-th claim of the commit certificate of the view.
fn is_kept(archive: &Archive, view: u16, i: u8, kept: &KeptClaim) -> bool
    ensures { result ≡ is_kept_at archive.now.commits view i kept.now }
{
    match archive.commit_claim(view, i) {
        Some(claim) => {
            claim.signer == kept.signer() && claim.signature == kept.claim().signature
        }
        None => false,
    }
}

// Whether those of the claims are those of the commit certificate of the view, one after the other.
fn are_kept(archive: &Archive, view: u16, claims: &[KeptClaim]) -> bool
    requires { length claims.now ≤ 255 }
    ensures { result ≡ are_kept_at archive.now.commits view 0 claims.now }
{
    let mut i = 0u8;
    for kept in claims {
        if !is_kept(archive, view, i, kept) {
            return false;
        }
        i += 1;
    }
    true
}

// The same, of at most 16 claims.
fn is_commit(archive: &Archive, view: u16, claims: &[KeptClaim]) -> bool
    ensures { result ≡ (nat_le (length claims.now) 16 && are_kept_at archive.now.commits view 0 claims.now) }
{
    claims.len() <= MEMBERS && are_kept(archive, view, claims)
}

// A copy, which takes no memory.
fn copied(view: &View) -> View
    ensures { result ≡ view.now }
{
    let Ok(copy) = view.clone() else {
        unreachable!()
    };
    copy
}

/// Keeps the view that was left last, with its pool, and answers whether its commit certificate is the one that the pool gives. The pool
/// is of the view after those that are kept, and what it has heard is in range.
pub fn keep_last(
    alloc: Global,
    archive: &mut Archive,
    pool: Pool,
    left: &LeftView,
) -> Result<bool, NoMemory>
    requires range { IsRanged pool.pool }
    requires order { pool.pool.view.number ≡ length archive.old.commits }
    ensures exact { (s : Setting) → IsLeft s pool.pool.view (left_view left.now) → IfOk result (λ b. IsTrue b
        ↔ (left.now.commit.items ≡ certificate pool.pool (Ready pool.pool.view.number left.now.rank (value_of left.now.value)))) }
    ensures kept { IfOk result (λ b. b ≡ true → KeepsOne archive.old archive.new pool.pool left.now.rank (value_of left.now.value)) }
{
    let mut pool = pool;
    let current = pool.view();
    let number = current.number();
    let _members = current.members();
    let begun = Pool::new(alloc, copied(current))?;
    let is_left = keep(archive, &mut pool, begun, left)?;
    if !is_left {
        return Ok(false);
    }
    Ok(is_commit(archive, number, &left.commit))
}
