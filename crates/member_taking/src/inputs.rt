//! What an event hands over: of a frame, what its bytes say.
ghost use Rattle.std.specs.Prelude.{◌≡◌, [], IfOk, IfErr};
ghost use Rattle.message_defs.specs.Claims.{frame_said, Faulty};
ghost use Rattle.group_defs.specs.Process.{Setting, Process};
ghost use Rattle.group_defs.specs.Events.{Hand, refusals};
ghost use Rattle.member_taking.specs.Inputs.{handed, InRange};

use frame_codec::{FrameView, split_frame};
use member_events::{Claims, FrameFault, claims_of};
use rp_base::{Pid, Update};

/// What is handed to a process, read. `handed` of the specs says what it is in the definitions.
#[derive(Clone, Copy)]
pub enum Input<'a> {
    /// A payload that the process is to multicast.
    Payload(&'a [u8]),

    /// The claims of a frame, and who it came from.
    Claims { from: Pid, claims: Claims<'a> },

    /// A process asks for what it lacks, from this view and this place on.
    Want { from: Pid, view: u16, place: u16 },

    /// An update is asked for.
    Update(Update),

    /// What was signed is to be sent again, and what is lacked to be asked for.
    Tick,
}

/// What the bytes of a frame hand over, or the first fault in them. What they hand over is never refused by a process that has
/// not halted.
pub(crate) fn read_frame<'a>(from: Pid, bytes: &'a [u8]) -> Result<Input<'a>, FrameFault>
    ensures read { IfOk result (λ i. Hand from (frame_said bytes.now) ≡ handed i) }
    ensures range { IfOk result InRange }
    ensures welcome { IfOk result (λ i. (s : Setting) (p : Process) → refusals s p (handed i) ≡ []) }
    ensures faulty { IfErr result (λ f. frame_said bytes.now ≡ Faulty f) }
{
    let frame = match split_frame(bytes) {
        Ok(frame) => frame,
        Err(fault) => return Err(fault),
    };
    let claims = match claims_of(&frame) {
        Ok(claims) => claims,
        Err(fault) => return Err(fault),
    };
    match frame {
        FrameView::Want { view, place } => Ok(Input::Want { from, view, place }),
        _ => Ok(Input::Claims { from, claims }),
    }
}
