ghost use Rattle.std.specs.Prelude.{◌≡◌, ◌↔◌, [], map, IsTrue};
ghost use Rattle.std.specs.List.{list_all};
ghost use Rattle.claim_pool.specs.Settings.{as_setting};
ghost use Rattle.kept_images.specs.Facts.{AreConflicts};
ghost use Rattle.kept_images.specs.Tests as tests;

use crate::said::are_conflicting;
use crate::valid::is_valid;
use rp_base::{GroupId, PidSet, Roster, Scheme};
use snapshot_rp::KeptClaim;

// Whether both claims are one signer's, conflict, and are valid.
fn is_conflict<V: Scheme>(
    scheme: &V,
    roster: &Roster,
    group: &GroupId,
    heard: &KeptClaim,
    other: &KeptClaim,
) -> bool
    ensures { result ≡ tests.is_conflict (as_setting (V.valid scheme.now) group.now roster.now) (heard.now, other.now) }
{
    heard.signer() == other.signer()
        && are_conflicting(&heard.claim().statement, &other.claim().statement)
        && is_valid(scheme, roster, group, heard)
        && is_valid(scheme, roster, group, other)
}

fn each_is_conflict<V: Scheme>(
    scheme: &V,
    roster: &Roster,
    group: &GroupId,
    pairs: &[(KeptClaim, KeptClaim)],
) -> bool
    ensures { result ≡ list_all (tests.is_conflict (as_setting (V.valid scheme.now) group.now roster.now)) pairs.now }
{
    pairs.iter().all(|pair| is_conflict(scheme, roster, group, &pair.0, &pair.1))
}

// Whether no signer of a pair was seen before.
fn are_unseen(pairs: &[(KeptClaim, KeptClaim)]) -> bool
    ensures { result ≡ tests.are_others [] (map (λ e. e.0.signer) pairs.now) }
{
    let mut seen = PidSet::new();
    for pair in pairs {
        let signer = pair.0.signer();
        if seen.contains(signer) {
            return false;
        }
        seen.insert(signer);
    }
    true
}

// Whether each pair is a conflict, of a signer of its own.
fn are_apart<V: Scheme>(
    scheme: &V,
    roster: &Roster,
    group: &GroupId,
    pairs: &[(KeptClaim, KeptClaim)],
) -> bool
    ensures { result ≡ tests.are_conflicts (as_setting (V.valid scheme.now) group.now roster.now) pairs.now }
{
    are_unseen(pairs) && each_is_conflict(scheme, roster, group, pairs)
}

/// Whether both claims of each pair are one signer's, conflict, and are valid, and each signer has one pair.
pub fn are_conflicts<V: Scheme>(
    scheme: &V,
    roster: &Roster,
    group: &GroupId,
    pairs: &[(KeptClaim, KeptClaim)],
) -> bool
    ensures { IsTrue result ↔ AreConflicts (as_setting (V.valid scheme.now) group.now roster.now) pairs.now }
{
    are_apart(scheme, roster, group, pairs)
}
