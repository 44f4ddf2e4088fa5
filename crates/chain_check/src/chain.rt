ghost use Rattle.std.specs.Prelude.{◌≡◌, IfOk, IfErr, Ok, Err};
ghost use Rattle.std.specs.List.{AllByRecursion};
ghost use Rattle.byte_defs.specs.Reads.{Gives};
ghost use Rattle.message_defs.specs.Spelling.{IsClaim};
ghost use Rattle.stmt_codec.specs.Left.{claims_left};
ghost use Rattle.claim_pool.specs.Settings.{as_setting};
ghost use Rattle.chain_defs.specs.Advance as defs;

use crate::readies::Readies;
use crate::shown::shown;
use chain_defs::ChainFault;
use frame_codec::{FrameView, split_frame};
use rp_base::{GroupId, Roster, Scheme};
use std::marker::Model;
use std::mem;
use stmt_codec::{Claims, claims_of};
use view_table::View;

/// A chain of views, of which the last is kept. Contracts see it as that view.
///
/// Whoever trusts its first view, and holds the group's public keys, need not trust those who hand the proofs over: where of each view
/// at most f members are corrupt, the views are those of all correct processes (law `chain_is_of_all`).
#[derive(Debug)]
pub struct Chain {
    view: View,
}

// Written out, so that whoever drops a value makes one call (docs/CONTRIBUTING.md).
impl Drop for Chain {
    fn drop(self) {
        let Chain { view } = self;
        mem::drop(view);
    }
}

impl Model for Chain {
    ghost use Rattle.group_defs.specs.Views as views;

    ghost Value = { views.View };

    ghost view = { λ c. c.view };
}

// The claims of the Proof that the bytes spell.
fn proof_claims(frame: &[u8]) -> Result<Claims<'_>, ChainFault>
    ensures exact { Gives claims_left result (defs.proof_said frame.now) }
    ensures range { IfOk result (λ cs. AllByRecursion IsClaim (claims_left cs)) }
{
    let frame = match split_frame(frame) {
        Ok(frame) => frame,
        Err(fault) => return Err(ChainFault::Frame(fault)),
    };
    let claims = match claims_of(&frame) {
        Ok(claims) => claims,
        Err(fault) => return Err(ChainFault::Frame(fault)),
    };
    match frame {
        FrameView::Proof(_) => Ok(claims),
        FrameView::Bundle(_) => Err(ChainFault::NotProof),
        FrameView::Want { .. } => Err(ChainFault::NotProof),
    }
}

// The view that the frame shows after this one.
fn view_shown<V: Scheme>(
    view: &View,
    scheme: &V,
    roster: &Roster,
    group: &GroupId,
    frame: &[u8],
) -> Result<View, ChainFault>
    ensures { Gives (λ w. w) result (defs.advance (as_setting (V.valid scheme.now) group.now roster.now) view.now frame.now) }
{
    let claims = match proof_claims(frame) {
        Ok(claims) => claims,
        Err(fault) => return Err(fault),
    };
    let readies = Readies::of(view, scheme, roster, group, claims);
    shown(view, roster.processes(), &readies)
}

impl Chain {
    ghost use Rattle.std.specs.Prelude.{◌≡◌, IfOk, IfErr, Ok, Err};
    ghost use Rattle.claim_pool.specs.Settings.{as_setting};
    ghost use Rattle.chain_defs.specs.Advance as defs;

    /// A chain that begins with this view: the genesis, or any other that is trusted.
    pub fn new(genesis: View) -> Chain
        ensures { result ≡ genesis }
    {
        Chain { view: genesis }
    }

    /// The last view.
    pub fn view(&self) -> &View
        ensures { result.now ≡ self.now }
    {
        &self.view
    }

    /// Takes a frame as a proof of the view that follows, and gives that view. It takes no memory. Where the frame shows none the chain
    /// is as before, and whoever made the frame is to blame, or it is of another view: `Frame` where the bytes are no frame of claims,
    /// `NotProof` where they are a Bundle or a Want, and `Few` where at no rank a quorum of the members says one Ready whose update is
    /// possible, with how many say one at most, 0 to 16.
    pub fn advance<V: Scheme>(
        &mut self,
        scheme: &V,
        roster: &Roster,
        group: &GroupId,
        frame: &[u8],
    ) -> Result<View, ChainFault>
        ensures shown { IfOk result (λ w. (defs.advance (as_setting (V.valid scheme.now) group.now roster.now) self.old frame.now ≡ Ok w)
            × (self.new ≡ w)) }
        ensures refused { IfErr result (λ e.
            (defs.advance (as_setting (V.valid scheme.now) group.now roster.now) self.old frame.now ≡ Err e)
            × (self.new ≡ self.old)) }
    {
        match view_shown(&self.view, scheme, roster, group, frame) {
            Ok(next) => {
                let Ok(kept) = next.clone() else {
                    unreachable!()
                };
                self.view = kept;
                Ok(next)
            }
            Err(fault) => Err(fault),
        }
    }
}
