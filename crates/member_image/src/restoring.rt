//! A member that begins again from an image.
ghost use Rattle.std.specs.Prelude.{◌≡◌, ◌≤◌, ℕ, length, IfOk, IsOkUnless};
ghost use Rattle.group_defs.specs.Process.{Setting};
ghost use Rattle.image_defs.specs.Images.{Image as PlainImage, process_of};
ghost use Rattle.snapshot_rp.specs.Views.{image as image_as};
ghost use Rattle.member_restoring.specs.States.{IsImage, Two};
ghost use Rattle.member_core.specs.Cores.{IsCore, signer_of};
ghost use Rattle.member_restoring.specs.Judged.{Judges};
ghost use Rattle.member_restoring.specs.Restored.{IsRestorable, IsRestored, signer_in};

use member_core::Core;
use member_restoring::{RestoreFault, Restored, judge};
use rp_base::{GroupId, NoMemory, Roster, Scheme, Tally};
use snapshot_rp::Image;
use std::alloc::Global;
use view_table::View;

/// The process that was judged, as a core. An own Order has at most `batch_limit` messages, 1 to 16.
///
/// # Errors
/// [`NoMemory`]; the process is dropped then.
pub fn begin<G: Tally + Drop>(
    alloc: Global,
    restored: Restored<G>,
    batch_limit: u8,
) -> Result<Core<G>, NoMemory>
    requires some { 1 ≤ batch_limit }
    requires few { batch_limit ≤ 16 }
    ensures is { (s : Setting) (before : ℕ) (i : PlainImage) → IsRestored G.used s before i restored
        → IfOk result (IsCore G.used s (process_of s batch_limit i)) }
    ensures signer { IfOk result (λ c. signer_of c ≡ signer_in restored) }
{
    let Restored {
        group,
        roster,
        state,
        signer,
    } = restored.with_limit(batch_limit);
    Core::of_state(alloc, group, roster, state, signer)
}

/// The process of this image, in the group of this roster, whose genesis view has the number 0. An own Order has at most `batch_limit`
/// messages, 1 to 16. The signer then counts as many signatures as the process has signed statements. No signature of the image is
/// verified twice.
///
/// On a fault image, roster and signer are dropped.
///
/// # Errors
/// [`RestoreFault::NotKept`] exactly where the image is not kept, which is that no member can have it (docs/FORMATS.md, «Images»), or
/// where the signed claims are more than the signer can make in all, or fewer than it has made.
/// [`RestoreFault::NoMemory`].
pub fn restore<G: Tally + Drop, V: Scheme>(
    alloc: Global,
    scheme: &V,
    group: GroupId,
    roster: Roster,
    genesis: View,
    image: Image,
    signer: G,
    batch_limit: u8,
) -> Result<Core<G>, RestoreFault>
    requires number { genesis.number ≡ 0 }
    requires some { 1 ≤ batch_limit }
    requires few { batch_limit ≤ 16 }
    requires spelled { IsImage Two (image_as image) }

    // Only from an image that is kept, with a signer that has made no more signatures than are signed, and can make that many.
    ensures kept { (s : Setting) → Judges s (V.valid scheme.now) group roster genesis
        → IfOk result (λ c. IsRestorable s (image_as image) (G.used signer) (G.total signer)) }

    // The core is the process of the image.
    ensures is { (s : Setting) → Judges s (V.valid scheme.now) group roster genesis
        → IfOk result (IsCore G.used s (process_of s batch_limit (image_as image))) }

    // From each such image, where there is memory.
    ensures only { (s : Setting) → Judges s (V.valid scheme.now) group roster genesis
        → IsRestorable s (image_as image) (G.used signer) (G.total signer) → IsOkUnless result RestoreFault.NoMemory }
    ensures used { IfOk result (λ c. G.used (signer_of c) ≡ length image.signed.items) }
    ensures total { IfOk result (λ c. G.total (signer_of c) ≡ G.total signer) }
    ensures key { IfOk result (λ c. G.same_key signer (signer_of c)) }
{
    let restored = judge(alloc, scheme, group, roster, genesis, image, signer)?;
    match begin(alloc, restored, batch_limit) {
        Ok(core) => Ok(core),
        Err(NoMemory) => Err(RestoreFault::NoMemory),
    }
}
