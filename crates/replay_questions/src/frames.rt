//! The claims of bytes that were handed over.
ghost use Rattle.std.specs.Prelude.{◌≡◌, [], IfSome, IfNone};
ghost use Rattle.std.specs.List.{AllByRecursion};
ghost use Rattle.message_defs.specs.Spelling.{IsClaim};
ghost use Rattle.stmt_codec.specs.Left.{claims_left};
ghost use Rattle.replay_world.specs.Handing.{claims_of as claims_of_bytes};

use frame_codec::{FrameView, split_frame};
use stmt_codec::{Claims, claims_of};

/// The claims of the frame that the bytes spell. None comes where there are none: the bytes spell no frame or a Want, or a claim has a
/// fault.
pub(crate) fn claims_in(bytes: &[u8]) -> Option<Claims<'_>>
    ensures claims { IfSome result (λ cs. claims_of_bytes bytes.now ≡ claims_left cs) }
    ensures range { IfSome result (λ cs. AllByRecursion IsClaim (claims_left cs)) }
    ensures none { IfNone result (claims_of_bytes bytes.now ≡ []) }
{
    let frame = match split_frame(bytes) {
        Ok(frame) => frame,
        Err(_) => return None,
    };
    let claims = match claims_of(&frame) {
        Ok(claims) => claims,
        Err(_) => return None,
    };
    match frame {
        FrameView::Want { .. } => None,
        _ => Some(claims),
    }
}
