//! The claims that a process signed itself.
ghost use Rattle.std.specs.Prelude.{◌≡◌, ◌++◌, ◌∷◌, [], List, All, IsTrue, IfOk, OnOk, map};
ghost use Rattle.std.specs.List.{list_all};
ghost use Rattle.message_defs.specs.Packing.{signed_of};
ghost use Rattle.message_defs.specs.Spelling.{IsStatement};
ghost use Rattle.message_defs.specs.Statements as plain;
ghost use Rattle.group_defs.specs.Process.{Setting};
ghost use Rattle.group_defs.specs.Hearing.{is_valid};
ghost use Rattle.stmt_codec.specs.Views.{signed};
ghost use Rattle.claim_firsts.specs.Seen.{Saw};

use claim_firsts::{Firsts, OwnClaim};
use rp_base::NoMemory;
use std::alloc::Global;
use stmt_codec::Payload;

// The claim, whose signature takes no more room than it needs. One that a process took again from its journal has the room of the longest
// signature that there is.
fn trimmed(alloc: Global, claim: OwnClaim) -> Result<OwnClaim, NoMemory>
    ensures { IfOk result (λ own. signed own ≡ signed claim) }
{
    let OwnClaim {
        signer,
        statement,
        signature,
    } = claim;
    let bytes = signature.bytes().to_vec(alloc)?;
    Ok(OwnClaim {
        signer,
        statement,
        signature: Payload::from_vec(bytes),
    })
}

// The table sees the claim as an own word.
fn see_trimmed(alloc: Global, claim: OwnClaim, all: &mut Firsts<'_>) -> Result<(), NoMemory>
    ensures seen { OnOk result ((s : Setting) (before own : List plain.Claim) (c : plain.Claim) → Saw s before own all.old
        → IsStatement c.statement → signed claim ≡ signed_of c → IsTrue (is_valid s c)
        → Saw s (before ++ c ∷ []) (own ++ c ∷ []) all.new) }
{
    let own = trimmed(alloc, claim)?;
    all.see_own(own)?;
    Ok(())
}

/// A process signed these claims, all of which are valid: the table sees them as own words.
///
/// # Errors
/// [`NoMemory`]; then a part of them was seen.
pub fn see_signed(claims: Vec<OwnClaim>, all: &mut Firsts<'_>) -> Result<(), NoMemory>
    ensures seen { (s : Setting) (before own said : List plain.Claim) → map signed_of said ≡ map signed claims.items
        → All (λ c. IsStatement c.statement) said → IsTrue (list_all (is_valid s) said)
        → Saw s before own all.old → OnOk result (Saw s (before ++ said) (own ++ said) all.new) }
{
    let alloc = *claims.allocator();
    let mut left = claims.into_iter();
    'claims: while let Some(claim) = left.next() {
        see_trimmed(alloc, claim, all)?;
    }
    Ok(())
}
