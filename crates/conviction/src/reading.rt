//! The claims of one process among those of a frame.
ghost use Rattle.std.specs.Prelude.{◌≡◌, ◌≤◌, IfOk, List, ℕ, Ok, length};
ghost use Rattle.std.specs.List.{AllByRecursion};
ghost use Rattle.byte_defs.specs.Reads.{Gives};
ghost use Rattle.message_defs.specs.Claims as plain;
ghost use Rattle.message_defs.specs.Spelling.{IsClaim};
ghost use Rattle.message_defs.specs.Statements as statements;
ghost use Rattle.frame_codec.specs.Views.{frame_view, groups_left};
ghost use Rattle.stmt_codec.specs.Left.{claims_left};
ghost use Rattle.conviction.specs.Own.{all_kept, claims_of_signer};

use crate::own::{Own, OwnClaims};
use frame_codec::{FrameView, Groups};
use rp_base::Pid;
use stmt_codec::{Claims, FrameFault, claims_of};

// The groups that are left of a frame are counted in a byte.
fn are_few(groups: Groups<'_>)
    ensures { length (groups_left groups.entry) ≤ 255 }
{}

// No process has more claims than a frame has groups.
fn own_are_few(frame: &FrameView<'_>)
    ensures { (cs : List statements.Claim) (q : ℕ) → plain.claims_of (frame_view frame.now) ≡ Ok cs → length (claims_of_signer cs q) ≤ 255 }
{
    match *frame {
        FrameView::Bundle(groups) => are_few(groups),
        FrameView::Proof(groups) => are_few(groups),
        FrameView::Want { .. } => {}
    }
}

/// The claims of the frame, or its fault. Each process has at most 255 of them.
pub(crate) fn claims_said<'a>(frame: &FrameView<'a>) -> Result<Claims<'a>, FrameFault>
    ensures exact { Gives claims_left result (plain.claims_of (frame_view frame.now)) }
    ensures range { IfOk result (λ cs. AllByRecursion IsClaim (claims_left cs)) }
    ensures few { IfOk result (λ cs. (q : ℕ) → length (claims_of_signer (claims_left cs) q) ≤ 255) }
{
    own_are_few(frame);
    claims_of(frame)
}

/// The claims of the process among these, in order.
pub(crate) fn own_claims<'a>(claims: Claims<'a>, q: Pid) -> OwnClaims<'a>
    requires { length (claims_of_signer (claims_left claims) q) ≤ 255 }
    ensures { all_kept result.items ≡ claims_of_signer (claims_left claims.entry) q }
{
    let mut own = OwnClaims::new();
    let mut left = claims;
    'claims: while let Some(claim) = left.next() {
        if claim.signer == q {
            own.push(Own(claim));
        }
    }
    own
}
