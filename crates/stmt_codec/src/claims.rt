//! The claims of a frame that was split: each group is one statement and its signers.
//!
//! | Frame | Carries |
//! |---|---|
//! | Bundle | every kind |
//! | Proof | Echo, Place, Keep, Ready; a Place or a Keep of several messages too |
//! | Want | no claims |
ghost use Rattle.std.specs.Prelude.{◌≡◌, [], IfOk};
ghost use Rattle.std.specs.List.{AllByRecursion};
ghost use Rattle.frame_codec.specs.Below.{Gives};
ghost use Rattle.message_defs.specs.Spelling.{IsClaim};
ghost use Rattle.message_defs.specs.Claims as plain;
ghost use Rattle.frame_codec.specs.Views as frames;
ghost use Rattle.statements.specs.Views.{carried};
ghost use Rattle.stmt_codec.specs.Looks.{looked};
ghost use Rattle.stmt_codec.specs.Left.{claims_left};

use crate::cursor::Claims;
use frame_codec::{FrameView, Group, Groups, Signatures};
use message_defs::FrameFault;
use statements::{Carrier, LAST_NUMBER, MOST_PLACES, read_carried};

fn check_signers(signatures: Signatures<'_>) -> Result<(), FrameFault>
    ensures { (st : _) → Gives (λ u. u) result (looked (plain.claims_on st (frames.signatures_left signatures.entry))) }
{
    let mut left = signatures;
    'signatures: while let Some((signer, _)) = left.next() {
        if signer > 63 {
            return Err(FrameFault::Range);
        }
    }
    Ok(())
}

#[tactic(auto, unfolding(message_defs::specs::Claims::claims_of_group))]
fn check_group(carrier: Carrier, group: &Group<'_>) -> Result<(), FrameFault>
    ensures { Gives (λ u. u) result (looked (plain.claims_of_group (carried carrier) (frames.group_view group.now))) }
{
    match read_carried(carrier, group.statement) {
        Ok(_) => check_signers(group.signatures),
        Err(fault) => Err(fault),
    }
}

fn check_groups(carrier: Carrier, groups: Groups<'_>) -> Result<(), FrameFault>
    ensures { Gives (λ u. u) result (looked (plain.claims_of_groups (carried carrier) (frames.groups_left groups.entry))) }
{
    let mut left = groups;
    'groups: while let Some(group) = left.next() {
        check_group(carrier, &group)?;
    }
    Ok(())
}

fn claims_in<'a>(carrier: Carrier, groups: Groups<'a>) -> Result<Claims<'a>, FrameFault>
    ensures exact { Gives claims_left result (plain.claims_of_groups (carried carrier) (frames.groups_left groups.entry)) }
    ensures range { IfOk result (λ cs. AllByRecursion IsClaim (claims_left cs)) }
{
    check_groups(carrier, groups)?;
    Ok(Claims {
        carrier,
        begun: None,
        groups: Some(groups),
    })
}

#[tactic(auto, unfolding(message_defs::specs::Claims::claims_of_groups))]
fn claims_of_want<'a>(view: u16, place: u16) -> Result<Claims<'a>, FrameFault>
    ensures exact { Gives claims_left result (plain.want_claims view place) }
    ensures none { IfOk result (λ cs. claims_left cs ≡ []) }
{
    if view > LAST_NUMBER || place > MOST_PLACES {
        return Err(FrameFault::Range);
    }
    Ok(Claims {
        carrier: Carrier::Proof,
        begun: None,
        groups: None,
    })
}

/// The claims of the frame, by group and signer, or fault 8, 9 or 10 (docs/FORMATS.md, «Statements»): the first from
/// the left, which refuses the whole frame. A Want has no claims; it is in range up to view 1,023 and place 1,024.
#[tactic(auto, unfolding(message_defs::specs::Claims::claims_of))]
pub fn claims_of<'a>(frame: &FrameView<'a>) -> Result<Claims<'a>, FrameFault>
    ensures exact { Gives claims_left result (plain.claims_of (frames.frame_view frame.now)) }

    // The claims are in range.
    ensures range { IfOk result (λ cs. AllByRecursion IsClaim (claims_left cs)) }
{
    match *frame {
        FrameView::Bundle(groups) => claims_in(Carrier::Bundle, groups),
        FrameView::Proof(groups) => claims_in(Carrier::Proof, groups),
        FrameView::Want { view, place } => claims_of_want(view, place),
    }
}
