//! One process of a snapshot, as it goes on.
ghost use Rattle.std.specs.Prelude.{◌≡◌, ◌≤◌, ℕ, IfOk};
ghost use Rattle.group_defs.specs.Process.{Setting};
ghost use Rattle.journal_defs.specs.declared.Version.{Version};
ghost use Rattle.journal_defs.specs.Journals.{batch_limit as limit_of};
ghost use Rattle.image_defs.specs.Images.{Image, process_of};
ghost use Rattle.kit_defs.specs.Kits.{Kit as PlainKit};
ghost use Rattle.node_defs.specs.Casts.{cast_of, setting_of};
ghost use Rattle.node_images.specs.Said.{Part};
ghost use Rattle.node_images.specs.Judging.{IsJudged};
ghost use Rattle.node_images.specs.Restored.{IsRestored, signer_in};
ghost use Rattle.sig_scheme.specs.Signers.{used};
ghost use Rattle.node_service.specs.Hosts.{IsCore, IsReal, core_of, me_of, IsHosted, signer_of};

use node_images::{AnySigner, Judged, Restored};
use node_service::{Core, Hosted};
use rp_base::{NoMemory, Tally};
use std::alloc::Global;

// The process that was judged, as a core. An own Order has at most `batch_limit` messages.
fn begin<G: Tally + Drop>(
    alloc: Global,
    restored: Restored<G>,
    batch_limit: u8,
) -> Result<Core<G>, NoMemory>
    requires some { 1 ≤ batch_limit }
    requires few { batch_limit ≤ 16 }
    ensures is { (s : Setting) (before : ℕ) (i : Image) → IsRestored G.used s before i restored
        → IfOk result (IsCore G.used s (process_of s batch_limit i)) }
    ensures signer { IfOk result (λ c. signer_of c ≡ signer_in restored) }
{
    let Restored {
        group,
        roster,
        state,
        signer,
    } = restored.with_limit(batch_limit);
    Core::of_state(alloc, group, roster, state, signer)
}

/// The process, as it goes on: an own Order has at most `batch_limit` messages, 1 to 16.
///
/// # Errors
/// [`NoMemory`].
pub(crate) fn go_on(
    alloc: Global,
    judged: Judged,
    batch_limit: u8,
) -> Result<Hosted<AnySigner>, NoMemory>
    requires some { 1 ≤ batch_limit }
    requires few { batch_limit ≤ 16 }
    ensures is { (version : Version) (kit : PlainKit) (part : Part) → limit_of version ≡ batch_limit → IsJudged kit part judged
        → IfOk result (IsHosted (cast_of kit version) part.0 (process_of (setting_of kit) batch_limit part.2)) }
    ensures number { (kit : PlainKit) (part : Part) → IsJudged kit part judged → IfOk result (λ h. me_of (core_of h) ≡ part.0) }
    ensures real { IfOk result (IsReal used) }
{
    let core = begin(alloc, judged.restored, batch_limit)?;
    Ok(Hosted::again(core))
}
