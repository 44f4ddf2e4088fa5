//! What a member has signed in all views, copied.
ghost use Rattle.std.specs.Prelude.{◌≡◌, ◌++◌, drop, slice_get, option_to_list, IfOk, OnOk};
ghost use Rattle.std.specs.List.{AllByRecursion};
ghost use Rattle.message_defs.specs.Spelling.{IsClaim};
ghost use Rattle.group_defs.specs.Process.{Setting, Process};
ghost use Rattle.state_image.specs.States.{IsReal, IsStateOf, claims_of};

use crate::claims::keep;
use member_settling::{ClaimList, ProcessState, SaidBefore};
use rp_base::NoMemory;
use snapshot_rp::KeptClaim;
use std::alloc::Global;

// Puts a copy of the claim at this place of the list behind the others.
fn keep_at(
    alloc: Global,
    kept: &mut Vec<KeptClaim>,
    list: &ClaimList,
    place: usize,
) -> Result<(), NoMemory>
    requires { AllByRecursion IsClaim (drop place list.now.claims) }
    ensures { OnOk result (kept.new.items ≡ kept.old.items ++ option_to_list (slice_get list.now.claims place)) }
{
    match list.get(place) {
        Some(claim) => keep(alloc, kept, &claim),
        None => Ok(()),
    }
}

// Puts copies of the claims of the list from this place on behind the others.
fn keep_from(
    alloc: Global,
    kept: &mut Vec<KeptClaim>,
    list: &ClaimList,
    from: usize,
) -> Result<(), NoMemory>
    requires { AllByRecursion IsClaim (drop from list.now.claims) }
    ensures { OnOk result (kept.new.items ≡ kept.old.items ++ drop from list.now.claims) }
{
    'claims: for place in from..list.len() {
        keep_at(alloc, kept, list, place)?;
    }
    Ok(())
}

// Puts copies of the claims of these lists behind the others, of each list those that stand in no list before it.
fn keep_before(
    alloc: Global,
    kept: &mut Vec<KeptClaim>,
    lists: &[SaidBefore],
) -> Result<(), NoMemory>
    requires { AllByRecursion IsClaim (claims_of lists.now) }
    ensures { OnOk result (kept.new.items ≡ kept.old.items ++ claims_of lists.now) }
{
    'lists: for list in lists {
        keep_from(alloc, kept, &list.claims, list.from)?;
    }
    Ok(())
}

/// Copies of what the process has signed, in order of signing; `many` is how much that is.
pub(crate) fn signed_in(
    alloc: Global,
    state: &ProcessState,
    many: usize,
) -> Result<Vec<KeptClaim>, NoMemory>
    requires { IsReal state.now }
    ensures { (s : Setting) (p : Process) → IsStateOf s p state.now → IfOk result (λ kept. kept.items ≡ p.signed) }
{
    let mut kept = Vec::with_capacity(alloc, many)?;
    keep_before(alloc, &mut kept, &state.said_before)?;
    keep_from(alloc, &mut kept, &state.said, state.said_from)?;
    Ok(kept)
}
