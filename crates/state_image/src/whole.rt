//! The image of a process, of the state that keeps it.
ghost use Rattle.std.specs.Prelude.{◌≡◌, IfOk};
ghost use Rattle.group_defs.specs.Process.{Setting, Process};
ghost use Rattle.image_defs.specs.Images.{image_of};
ghost use Rattle.snapshot_rp.specs.Views.{image as image_as};
ghost use Rattle.state_image.specs.States.{IsReal, IsStateOf};

use crate::claims::{conflicts_in, heard_before, heard_in};
use crate::left::left_views;
use crate::reported::{decision_in, is_halted, reported_in};
use crate::signed::signed_in;
use member_settling::ProcessState;
use rp_base::NoMemory;
use snapshot_rp::Image;
use std::alloc::Global;

/// The image of the process that has this state. It goes once over what the state keeps, which stays as it is. Room for `many` signed
/// claims is taken at once: how many it has signed.
///
/// # Errors
/// [`NoMemory`] where room for a copy is refused.
pub fn image_in(alloc: Global, state: &ProcessState, many: usize) -> Result<Image, NoMemory>
    requires { IsReal state.now }
    ensures { (s : Setting) (p : Process) → IsStateOf s p state.now → IfOk result (λ image. image_as image ≡ image_of p) }
{
    let left = left_views(alloc, &state.archive, state.pool.view().number())?;
    let signed = signed_in(alloc, state, many)?;
    let previous = heard_before(alloc, &state.archive)?;
    let heard = heard_in(alloc, &state.pool)?;
    let conflicts = conflicts_in(alloc, &state.conflicts)?;
    let reported = reported_in(alloc, &state.account)?;
    Ok(Image {
        me: state.own.me,
        left,
        perceived: reported.perceived,
        accepted: reported.accepted,
        signed,
        previous,
        heard,
        conflicts,
        delivered: reported.delivered,
        decision: decision_in(&state.phase),
        halted: is_halted(&state.phase),
    })
}
