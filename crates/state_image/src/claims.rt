//! Claims that a member has heard, copied.
ghost use Rattle.std.specs.Prelude.{◌≡◌, ◌+◌, ◌≤◌, ◌++◌, ◌∷◌, [], drop, length, slice_get, option_to_list, Some, IfOk, OnOk};
ghost use Rattle.std.specs.Option.{option_map_or};
ghost use Rattle.std.specs.List.{AllByRecursion};
ghost use Rattle.byte_defs.specs.Orders.{put};
ghost use Rattle.message_defs.specs.Spelling.{IsClaim};
ghost use Rattle.group_defs.specs.Process as defs;
ghost use Rattle.image_defs.specs.Images.{by_signer, conflict_key};
ghost use Rattle.stmt_codec.specs.Views.{claim as claim_of};
ghost use Rattle.state_image.specs.States.{IsRanged};
ghost use Rattle.state_image.specs.Pairs.{first_above};
ghost use Rattle.state_image.specs.Ranges.{ArePairsRanged};

use member_settling::{Conflicts, Pool, pair_at};
use reliable_mcast::Archive;
use rp_base::{NoMemory, Pid};
use snapshot_rp::KeptClaim;
use std::alloc::Global;
use stmt_codec::Claim;

/// Puts a copy of the claim behind the others.
pub(crate) fn keep(
    alloc: Global,
    kept: &mut Vec<KeptClaim>,
    claim: &Claim<'_>,
) -> Result<(), NoMemory>
    requires { IsClaim (claim_of claim.now) }
    ensures { OnOk result (kept.new.items ≡ kept.old.items ++ claim_of claim.now ∷ []) }
{
    kept.push(KeptClaim::new(alloc, claim)?)?;
    Ok(())
}

// Puts a copy of the heard claim at this place behind the others.
fn keep_heard(
    alloc: Global,
    kept: &mut Vec<KeptClaim>,
    pool: &Pool,
    place: usize,
) -> Result<(), NoMemory>
    requires { AllByRecursion IsClaim (drop place pool.now.pool.heard) }
    ensures { OnOk result (kept.new.items ≡ kept.old.items ++ option_to_list (slice_get pool.now.pool.heard place)) }
{
    match pool.claim_at(place) {
        Some(claim) => keep(alloc, kept, &claim),
        None => Ok(()),
    }
}

/// Copies of the claims that are heard, in order of hearing.
pub(crate) fn heard_in(alloc: Global, pool: &Pool) -> Result<Vec<KeptClaim>, NoMemory>
    requires { IsRanged pool.now.pool }
    ensures { IfOk result (λ kept. kept.items ≡ pool.now.pool.heard) }
{
    let count = pool.size().0;
    let mut kept = Vec::with_capacity(alloc, count)?;
    'claims: for place in 0..count {
        keep_heard(alloc, &mut kept, pool, place)?;
    }
    Ok(kept)
}

/// Copies of the claims that were heard in the view that was left last; none where no view was left.
pub(crate) fn heard_before(alloc: Global, archive: &Archive) -> Result<Vec<KeptClaim>, NoMemory>
    requires { (h : defs.Pool) → archive.now.previous ≡ Some h → IsRanged h }
    ensures { IfOk result (λ kept. kept.items ≡ option_map_or (λ h. h.heard) archive.now.previous []) }
{
    match archive.previous() {
        Some(pool) => heard_in(alloc, pool),
        None => Ok(Vec::new(alloc)),
    }
}

// The place of the first pair of a signer above this one, or behind the last one.
fn place_among(kept: &[(KeptClaim, KeptClaim)], signer: Pid) -> usize
    ensures within { result ≤ length kept.now }
    ensures place { result ≡ first_above signer kept.now }
{
    'pairs: for (place, pair) in kept.iter().enumerate() {
        if signer.get() < pair.0.signer().get() {
            return place;
        }
    }
    kept.len()
}

// Puts copies of both claims among the other pairs, which rise by signer.
fn keep_pair(
    alloc: Global,
    kept: &mut Vec<(KeptClaim, KeptClaim)>,
    heard: &Claim<'_>,
    other: &Claim<'_>,
) -> Result<(), NoMemory>
    requires heard { IsClaim (claim_of heard.now) }
    requires other { IsClaim (claim_of other.now) }
    ensures { OnOk result (kept.new.items ≡ put conflict_key (claim_of heard.now, claim_of other.now) kept.old.items) }
{
    let place = place_among(kept.as_slice(), heard.signer);
    let heard = KeptClaim::new(alloc, heard)?;
    let other = KeptClaim::new(alloc, other)?;
    kept.insert(place, (heard, other))?;
    Ok(())
}

// Puts a copy of the pair at this place among those behind it, which rise by signer.
fn keep_pair_at(
    alloc: Global,
    kept: &mut Vec<(KeptClaim, KeptClaim)>,
    conflicts: &Conflicts,
    place: usize,
) -> Result<(), NoMemory>
    requires ranged { ArePairsRanged conflicts.now.pairs }
    requires behind { kept.old.items ≡ by_signer (drop (place + 1) conflicts.now.pairs) }
    ensures { OnOk result (kept.new.items ≡ by_signer (drop place conflicts.now.pairs)) }
{
    match pair_at(conflicts, place) {
        Some((heard, other)) => keep_pair(alloc, kept, &heard, &other),
        None => Ok(()),
    }
}

/// Copies of the pairs of claims that conflict, by rising signer.
pub(crate) fn conflicts_in(
    alloc: Global,
    conflicts: &Conflicts,
) -> Result<Vec<(KeptClaim, KeptClaim)>, NoMemory>
    requires { ArePairsRanged conflicts.now.pairs }
    ensures { IfOk result (λ kept. kept.items ≡ by_signer conflicts.now.pairs) }
{
    let mut left = conflicts.len();
    let mut kept = Vec::with_capacity(alloc, left)?;
    'pairs: while left > 0 {
        left -= 1;
        keep_pair_at(alloc, &mut kept, conflicts, left)?;
    }
    Ok(kept)
}
