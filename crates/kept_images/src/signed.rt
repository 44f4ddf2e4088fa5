ghost use Rattle.std.specs.Prelude.{◌≡◌, ◌↔◌, IsTrue};
ghost use Rattle.std.specs.List.{list_all};
ghost use Rattle.claim_pool.specs.Settings.{as_setting};
ghost use Rattle.kept_images.specs.Facts.{AreOwn};
ghost use Rattle.kept_images.specs.Tests as tests;

use crate::valid::is_valid;
use rp_base::{GroupId, Pid, Roster, Scheme};
use snapshot_rp::KeptClaim;
use view_table::View;

// Whether the claim is of this process, of no view above this one, and valid.
fn is_own<V: Scheme>(
    scheme: &V,
    roster: &Roster,
    group: &GroupId,
    me: Pid,
    view: &View,
    kept: &KeptClaim,
) -> bool
    ensures { result ≡ tests.is_own (as_setting (V.valid scheme.now) group.now roster.now) me view.now kept.now }
{
    kept.signer() == me
        && kept.claim().statement.view() <= view.number()
        && is_valid(scheme, roster, group, kept)
}

fn each_is_own<V: Scheme>(
    scheme: &V,
    roster: &Roster,
    group: &GroupId,
    me: Pid,
    view: &View,
    signed: &[KeptClaim],
) -> bool
    ensures { result ≡ list_all (tests.is_own (as_setting (V.valid scheme.now) group.now roster.now) me view.now) signed.now }
{
    signed
        .iter()
        .all(|kept| is_own(scheme, roster, group, me, view, kept))
}

/// Whether each claim is of this process, of no view above this one, and valid.
pub fn are_own<V: Scheme>(
    scheme: &V,
    roster: &Roster,
    group: &GroupId,
    me: Pid,
    view: &View,
    signed: &[KeptClaim],
) -> bool
    ensures { IsTrue result ↔ AreOwn (as_setting (V.valid scheme.now) group.now roster.now) me view.now signed.now }
{
    each_is_own(scheme, roster, group, me, view, signed)
}
