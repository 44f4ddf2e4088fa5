//! How the views were left.
ghost use Rattle.std.specs.Prelude.{◌≡◌, map, MatchOption};
ghost use Rattle.std.specs.List.{list_all};
ghost use Rattle.rp_base.specs.Views.{value as value_of};
ghost use Rattle.image_defs.specs.Images as images;
ghost use Rattle.image_defs.specs.Kept.{AreLeft};
ghost use Rattle.snapshot_rp.specs.Views.{left_view};
ghost use Rattle.claim_pool.specs.Settings.{as_setting};
ghost use Rattle.kept_images.specs.Settings.{setting};
ghost use Rattle.kept_images.specs.Tests as tests;

use crate::said::is_same;
use crate::valid::is_valid;
use member_events::Statement;
use rp_base::{GroupId, Roster, Scheme, Value};
use snapshot_rp::{KeptClaim, LeftView};
use view_table::{View, is_possible, next, quorum};

// Whether the claim is a member's, says the Ready of this rank and value, and is valid.
fn commits<V: Scheme>(
    scheme: &V,
    roster: &Roster,
    group: &GroupId,
    view: &View,
    ready: (u8, Value),
    claim: &KeptClaim,
) -> bool
    ensures { result ≡ tests.commits (as_setting (V.valid scheme.now) group.now roster.now) view.now ready.0 (value_of ready.1) claim.now }
{
    let said = Statement::Ready {
        view: view.number(),
        rank: ready.0,
        value: ready.1,
    };
    view.is_member(claim.signer())
        && is_same(&claim.claim().statement, &said)
        && is_valid(scheme, roster, group, claim)
}

fn each_commits<V: Scheme>(
    scheme: &V,
    roster: &Roster,
    group: &GroupId,
    view: &View,
    ready: (u8, Value),
    claims: &[KeptClaim],
) -> bool
    ensures { result ≡ list_all (tests.commits (as_setting (V.valid scheme.now) group.now roster.now) view.now ready.0 (value_of ready.1))
        claims.now }
{
    claims
        .iter()
        .all(|claim| commits(scheme, roster, group, view, ready, claim))
}

// Whether each of their signers is above the one before it.
fn rise(claims: &[KeptClaim]) -> bool
    ensures { result ≡ tests.rise_from 0 (map (λ c. c.signer) claims.now) }
{
    let mut least = 0;
    for claim in claims {
        let signer = claim.signer().get();
        if signer < least {
            return false;
        }
        least = signer + 1;
    }
    true
}

// Whether the view was left so: by the claims of a quorum of its members on a Ready whose update is possible.
#[tactic(auto, unfolding(crate::specs::Tests::is_left))]
fn is_left<V: Scheme>(
    scheme: &V,
    roster: &Roster,
    group: &GroupId,
    view: &View,
    left: &LeftView,
) -> bool
    ensures { result ≡ tests.is_left (as_setting (V.valid scheme.now) group.now roster.now) view.now (left_view left.now) }
{
    let members = view.members().len();
    (left.rank as usize) < members
        && left.commit.len() == quorum(members)
        && is_possible(view, roster.processes(), &left.value.update)
        && rise(&left.commit)
        && each_commits(
            scheme,
            roster,
            group,
            view,
            (left.rank, left.value),
            &left.commit,
        )
}

// The view after these, where each was left so.
fn leave<V: Scheme>(
    scheme: &V,
    roster: &Roster,
    group: &GroupId,
    genesis: View,
    left: &[LeftView],
) -> Option<View>
    ensures { result ≡ tests.leaves (as_setting (V.valid scheme.now) group.now roster.now) genesis (map left_view left.now) }
{
    let mut view = genesis;
    for one in left {
        if !is_left(scheme, roster, group, &view, one) {
            return None;
        }
        match next(&view, one.value.update) {
            Ok(following) => view = following,
            Err(_) => return None,
        }
    }
    Some(view)
}

/// The view after those that were left, the first of which is the genesis view; None exactly where one was not left by the claims of a
/// quorum of its members on a Ready whose update is possible.
pub fn view_behind<V: Scheme>(
    scheme: &V,
    roster: &Roster,
    group: &GroupId,
    genesis: View,
    left: &[LeftView],
) -> Option<View>
    ensures { MatchOption result
        (AreLeft (setting (V.valid scheme.now) group.now roster.now genesis) genesis (map left_view left.now) → ⊥)
        (λ v. AreLeft (setting (V.valid scheme.now) group.now roster.now genesis) genesis (map left_view left.now)
        × (v ≡ images.view_behind genesis (map left_view left.now))) }
{
    leave(scheme, roster, group, genesis, left)
}
