//! A process that is judged by its image.
ghost use Rattle.std.specs.Prelude.{◌≡◌, ◌↔◌, ◌≤◌, None, length, is_some, IfOk, IfSome, IsOkUnless, IsTrue};
ghost use Rattle.group_defs.specs.Process.{Setting, all_kinds};
ghost use Rattle.image_defs.specs.Images.{Image as PlainImage, process_of};
ghost use Rattle.snapshot_rp.specs.Views.{image as image_as};
ghost use Rattle.member_restoring.specs.States.{IsImage, IsReal, IsStateOf, Two};
ghost use Rattle.member_restoring.specs.Judged.{Judges};
ghost use Rattle.member_restoring.specs.Restored.{IsRestorable, IsRestored, signer_in};

use crate::fault::RestoreFault;
use crate::restored::Restored;
use crate::state::state_of;
use restored_present::{Judge, ProcessState};
use rp_base::{GroupId, Roster, Scheme, Tally};
use snapshot_rp::Image;
use std::alloc::Global;
use view_table::View;

// Whether the signer has made no more signatures than so many, and can make so many.
fn can_have_made<G: Tally>(signer: &G, made: usize) -> bool
    ensures { IsTrue result ↔ ((G.used signer.now ≤ made) × (made ≤ G.total signer.now)) }
{
    signer.used() as usize <= made && made <= signer.total() as usize
}

// The process of this state, where there is one, whose signer then counts so many signatures.
fn with_signer<G: Tally + Drop>(
    group: GroupId,
    roster: Roster,
    state: Option<ProcessState>,
    signer: G,
    made: u32,
) -> Result<Restored<G>, RestoreFault>
    requires from { G.used signer ≤ made }
    requires within { made ≤ G.total signer }
    requires real { IfSome state (λ st. IsReal st) }
    requires here { IfSome state (λ st. st.left ≡ None) }
    ensures is { (s : Setting) (i : PlainImage) → s.group ≡ group → s.roster ≡ roster → s.signs ≡ all_kinds → length i.signed ≡ made
        → IfSome state (IsStateOf s (process_of s 1 i)) → IfOk result (IsRestored G.used s 1 i) }
    ensures some { IsTrue (is_some state) → IsOkUnless result RestoreFault.NoMemory }
    ensures only { IfOk result (λ r. IsTrue (is_some state)) }
    ensures used { IfOk result (λ r. G.used (signer_in r) ≡ made) }
    ensures total { IfOk result (λ r. G.total (signer_in r) ≡ G.total signer) }
    ensures key { IfOk result (λ r. G.same_key signer (signer_in r)) }
{
    let Some(state) = state else {
        return Err(RestoreFault::NotKept);
    };
    let mut signer = signer;
    signer.skip_to(made);
    Ok(Restored {
        group,
        roster,
        state,
        signer,
    })
}

/// The process of this image, in the group of this roster, whose genesis view has the number 0. An own Order has one message, until
/// `with_limit` says otherwise. The signer then counts as many signatures as the process has signed statements. No signature of the image is
/// verified twice.
///
/// On a fault image, roster and signer are dropped.
///
/// # Errors
/// [`RestoreFault::NotKept`] exactly where the image is not kept, which is that no member can have it (docs/FORMATS.md, «Images»), or
/// where the signed claims are more than the signer can make in all, or fewer than it has made.
/// [`RestoreFault::NoMemory`].
pub fn judge<G: Tally + Drop, V: Scheme>(
    alloc: Global,
    scheme: &V,
    group: GroupId,
    roster: Roster,
    genesis: View,
    image: Image,
    signer: G,
) -> Result<Restored<G>, RestoreFault>
    requires number { genesis.number ≡ 0 }
    requires spelled { IsImage Two (image_as image) }

    // Only from an image that is kept, with a signer that has made no more signatures than are signed, and can make so many.
    ensures kept { (s : Setting) → Judges s (V.valid scheme.now) group roster genesis
        → IfOk result (λ r. IsRestorable s (image_as image) (G.used signer) (G.total signer)) }

    // It is the process of the image.
    ensures is { (s : Setting) → Judges s (V.valid scheme.now) group roster genesis → IfOk result (IsRestored G.used s 1 (image_as image)) }

    // From each such image, where there is memory.
    ensures only { (s : Setting) → Judges s (V.valid scheme.now) group roster genesis
        → IsRestorable s (image_as image) (G.used signer) (G.total signer) → IsOkUnless result RestoreFault.NoMemory }
    ensures used { IfOk result (λ r. G.used (signer_in r) ≡ length image.signed.items) }
    ensures total { IfOk result (λ r. G.total (signer_in r) ≡ G.total signer) }
    ensures key { IfOk result (λ r. G.same_key signer (signer_in r)) }
{
    let made = image.signed.as_slice().len();
    if !can_have_made(&signer, made) {
        return Err(RestoreFault::NotKept);
    }
    let judge = Judge {
        scheme,
        roster: &roster,
        group: &group,
    };
    match state_of(alloc, &judge, genesis, image, 1) {
        Ok(state) => with_signer(group, roster, state, signer, made as u32),
        Err(_) => Err(RestoreFault::NoMemory),
    }
}
