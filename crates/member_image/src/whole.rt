//! The image of a member.
ghost use Rattle.std.specs.Prelude.{◌≡◌, IfOk};
ghost use Rattle.group_defs.specs.Process.{Setting, Process};
ghost use Rattle.image_defs.specs.Images.{image_of};
ghost use Rattle.snapshot_rp.specs.Views.{image as image_as};
ghost use Rattle.member_core.specs.Cores.{IsCore};

use member_core::Core;
use rp_base::{NoMemory, Tally};
use snapshot_rp::Image;
use state_image::image_in;
use std::alloc::Global;

/// The image of the process: its data without group, roster, key and batch limit, of which it begins again. It goes once over what the
/// process keeps, and the process stays as it is.
///
/// # Errors
/// [`NoMemory`] where room for a copy is refused.
pub fn image<G: Tally + Drop>(core: &Core<G>, alloc: Global) -> Result<Image, NoMemory>
    ensures { (s : Setting) (p : Process) → IsCore G.used s p core.now → IfOk result (λ image. image_as image ≡ image_of p) }
{
    image_in(alloc, core.state(), core.used() as usize)
}
