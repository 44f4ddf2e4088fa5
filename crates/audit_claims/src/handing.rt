//! The claims that a frame hands over.
ghost use Rattle.std.specs.Prelude.{◌≡◌, ◌++◌, ◌∷◌, [], List, OnOk, IfNone, IfSome};
ghost use Rattle.std.specs.List.{AllByRecursion};
ghost use Rattle.message_defs.specs.Spelling.{IsClaim, IsStatement};
ghost use Rattle.message_defs.specs.Statements as plain;
ghost use Rattle.group_defs.specs.Process.{Setting};
ghost use Rattle.stmt_codec.specs.Views.{stmt, claim as claim_of};
ghost use Rattle.stmt_codec.specs.Left.{claims_left};
ghost use Rattle.claim_hearing.specs.Hearing.{Shares};
ghost use Rattle.claim_firsts.specs.Seen.{Saw};
ghost use Rattle.audit_claims.specs.Handed.{claims_handed};

use claim_firsts::Firsts;
use claim_hearing::Judge;
use claim_pool::is_signed;
use frame_codec::split_frame;
use rp_base::{NoMemory, Scheme};
use stmt_codec::{Claim, Claims, claims_of};

// The claims that the bytes hand over; None where they are no frame of claims, and then they hand over none.
fn claims_in<'a>(bytes: &'a [u8]) -> Option<Claims<'a>>
    ensures said { IfSome result (λ cs. claims_left cs ≡ claims_handed bytes.now) }
    ensures range { IfSome result (λ cs. AllByRecursion IsClaim (claims_left cs)) }
    ensures none { IfNone result (claims_handed bytes.now ≡ []) }
{
    let Ok(frame) = split_frame(bytes) else {
        return None;
    };
    match claims_of(&frame) {
        Ok(claims) => Some(claims),
        Err(_) => None,
    }
}

// Verifies the claim's signature; both tables see the claim, where it is valid.
fn verify_and_see<'a, V: Scheme>(
    judge: &Judge<'_, V>,
    claim: &Claim<'a>,
    all: &mut Firsts<'a>,
    handed: &mut Firsts<'a>,
) -> Result<(), NoMemory>
    requires { IsStatement (stmt claim.now.statement) }
    ensures seen { (s : Setting) (claims own before : List plain.Claim)
        → Shares s (V.valid judge.now.scheme.now) judge.now.group.now judge.now.roster.now
        → Saw s claims own all.old → Saw s before [] handed.old
        → OnOk result (Saw s (claims ++ claim_of claim.now ∷ []) own all.new × Saw s (before ++ claim_of claim.now ∷ []) [] handed.new) }
{
    if !is_signed(judge.scheme, judge.roster, judge.group, claim) {
        return Ok(());
    }
    all.see(claim)?;
    handed.see(claim)
}

// Both tables see the claim, where it is valid. What the table of all claims knows is not verified again, and changes nothing there.
fn see_valid<'a, V: Scheme>(
    judge: &Judge<'_, V>,
    claim: &Claim<'a>,
    all: &mut Firsts<'a>,
    handed: &mut Firsts<'a>,
) -> Result<(), NoMemory>
    requires { IsStatement (stmt claim.now.statement) }
    ensures seen { (s : Setting) (claims own before : List plain.Claim)
        → Shares s (V.valid judge.now.scheme.now) judge.now.group.now judge.now.roster.now
        → Saw s claims own all.old → Saw s before [] handed.old
        → OnOk result (Saw s (claims ++ claim_of claim.now ∷ []) own all.new × Saw s (before ++ claim_of claim.now ∷ []) [] handed.new) }
{
    if all.knows(claim) {
        return handed.see(claim);
    }
    verify_and_see(judge, claim, all, handed)
}

// Both tables see those of the claims that are valid.
fn see_all<'a, V: Scheme>(
    judge: &Judge<'_, V>,
    claims: Claims<'a>,
    all: &mut Firsts<'a>,
    handed: &mut Firsts<'a>,
) -> Result<(), NoMemory>
    requires { AllByRecursion IsClaim (claims_left claims) }
    ensures seen { (s : Setting) (before own to : List plain.Claim)
        → Shares s (V.valid judge.now.scheme.now) judge.now.group.now judge.now.roster.now
        → Saw s before own all.old → Saw s to [] handed.old
        → OnOk result (Saw s (before ++ claims_left claims.entry) own all.new × Saw s (to ++ claims_left claims.entry) [] handed.new) }
{
    let mut left = claims;
    'claims: while let Some(claim) = left.next() {
        see_valid(judge, &claim, all, handed)?;
    }
    Ok(())
}

/// The bytes were handed over as a frame to a process: the claims in them that are valid are seen in the table of all claims, and in that
/// of the claims that were handed to the process. A signature is not verified where the table of all claims knows it. Bytes that are no
/// frame of claims hand over nothing.
///
/// # Errors
/// [`NoMemory`]; then a part of the claims was seen, in one table or in both.
pub fn see_frame<'a, V: Scheme>(
    judge: &Judge<'_, V>,
    bytes: &'a [u8],
    all: &mut Firsts<'a>,
    handed: &mut Firsts<'a>,
) -> Result<(), NoMemory>
    ensures seen { (s : Setting) (before own to : List plain.Claim)
        → Shares s (V.valid judge.now.scheme.now) judge.now.group.now judge.now.roster.now
        → Saw s before own all.old → Saw s to [] handed.old
        → OnOk result (Saw s (before ++ claims_handed bytes.now) own all.new × Saw s (to ++ claims_handed bytes.now) [] handed.new) }
{
    match claims_in(bytes) {
        Some(claims) => see_all(judge, claims, all, handed),
        None => Ok(()),
    }
}
