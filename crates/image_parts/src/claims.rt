//! Claims of an image, in the lists that a member keeps.
ghost use Rattle.std.specs.Prelude.{◌≡◌, ◌≢◌, ◌==◌, ◌++◌, ◌∷◌, [], filter, AllPairs, IfOk, OnOk};
ghost use Rattle.message_defs.specs.Spelling.{IsClaim};
ghost use Rattle.message_defs.specs.Statements as plain;
ghost use Rattle.stmt_codec.specs.Views.{claim as claim_of};
ghost use Rattle.claim_lists.specs.Pairs.{with_pair};
ghost use Rattle.image_parts.specs.Walks.{with_said, with_all_said, with_pairs};

use claim_lists::{ClaimList, Conflicts};
use rp_base::NoMemory;
use snapshot_rp::KeptClaim;
use std::alloc::Global;
use stmt_codec::{Claim, Statement, claim_len};

// Puts the claim after the others.
fn put(claims: &mut ClaimList, claim: &Claim<'_>) -> Result<(), NoMemory>
    requires { IsClaim (claim_of claim.now) }
    ensures { OnOk result (claims.new.claims ≡ claims.old.claims ++ claim_of claim.now ∷ []) }
{
    claims.reserve(1, claim_len(claim))?;
    claims.push(claim);
    Ok(())
}

// The same, with the claim as an image has it.
fn put_kept(claims: &mut ClaimList, kept: &KeptClaim) -> Result<(), NoMemory>
    ensures { OnOk result (claims.new.claims ≡ claims.old.claims ++ kept.now ∷ []) }
{
    let Claim {
        signer,
        statement,
        signature,
    } = kept.claim();

    // The type is named, since the checker does not know it here otherwise.
    let statement: Statement<'_> = statement;
    let claim = Claim {
        signer,
        statement,
        signature,
    };
    put(claims, &claim)
}

/// The claims, in order.
pub fn claims_of(alloc: Global, kept: &[KeptClaim]) -> Result<ClaimList, NoMemory>
    ensures { IfOk result (λ list. list.claims ≡ kept.now) }
{
    let mut list = ClaimList::new(alloc);
    for one in kept {
        put_kept(&mut list, one)?;
    }
    Ok(list)
}

// Puts the claim after the others, where it is of the view of this number.
fn put_said(said: &mut ClaimList, number: u16, kept: &KeptClaim) -> Result<(), NoMemory>
    ensures { OnOk result (said.new.claims ≡ with_said number said.old.claims kept.now) }
{
    let claim = kept.claim();
    if claim.statement.view() == number {
        put(said, &claim)?;
    }
    Ok(())
}

// Puts those of the claims after the others that are of the view of this number.
fn put_all_said(said: &mut ClaimList, number: u16, signed: &[KeptClaim]) -> Result<(), NoMemory>
    ensures { OnOk result (said.new.claims ≡ with_all_said number said.old.claims signed.now) }
{
    for kept in signed {
        put_said(said, number, kept)?;
    }
    Ok(())
}

/// Those of the claims that are of the view of this number, in order.
pub fn said_in(alloc: Global, number: u16, signed: &[KeptClaim]) -> Result<ClaimList, NoMemory>
    ensures { IfOk result (λ said. said.claims ≡ filter (λ c. plain.view_of c.statement == number) signed.now) }
{
    let mut said = ClaimList::new(alloc);
    put_all_said(&mut said, number, signed)?;
    Ok(said)
}

// Keeps the pair, where none of its other claim's signer is kept.
fn keep(conflicts: &mut Conflicts, heard: &Claim<'_>, other: &Claim<'_>) -> Result<(), NoMemory>
    requires heard { IsClaim (claim_of heard.now) }
    requires other { IsClaim (claim_of other.now) }
    ensures { OnOk result (conflicts.new.pairs ≡ with_pair conflicts.old.pairs (claim_of heard.now) (claim_of other.now)) }
{
    conflicts.reserve(1, claim_len(heard).max(claim_len(other)))?;
    conflicts.keep(heard, other);
    Ok(())
}

// The same, with the other claim as the image has it.
fn keep_other(
    conflicts: &mut Conflicts,
    heard: &Claim<'_>,
    kept: &KeptClaim,
) -> Result<(), NoMemory>
    requires { IsClaim (claim_of heard.now) }
    ensures { OnOk result (conflicts.new.pairs ≡ with_pair conflicts.old.pairs (claim_of heard.now) kept.now) }
{
    let Claim {
        signer,
        statement,
        signature,
    } = kept.claim();

    // As in `put_kept`.
    let statement: Statement<'_> = statement;
    let other = Claim {
        signer,
        statement,
        signature,
    };
    keep(conflicts, heard, &other)
}

// The same, with both as the image has them.
fn keep_pair(conflicts: &mut Conflicts, kept: &KeptClaim, other: &KeptClaim) -> Result<(), NoMemory>
    ensures { OnOk result (conflicts.new.pairs ≡ with_pair conflicts.old.pairs kept.now other.now) }
{
    let Claim {
        signer,
        statement,
        signature,
    } = kept.claim();

    // As in `put_kept`.
    let statement: Statement<'_> = statement;
    let heard = Claim {
        signer,
        statement,
        signature,
    };
    keep_other(conflicts, &heard, other)
}

// Keeps these pairs, each where none of its other claim's signer is kept.
fn keep_each(conflicts: &mut Conflicts, pairs: &[(KeptClaim, KeptClaim)]) -> Result<(), NoMemory>
    ensures { OnOk result (conflicts.new.pairs ≡ with_pairs conflicts.old.pairs pairs.now) }
{
    for pair in pairs {
        keep_pair(conflicts, &pair.0, &pair.1)?;
    }
    Ok(())
}

/// The conflicts that these pairs are, where no signer has two of them.
pub fn conflicts_of(alloc: Global, pairs: &[(KeptClaim, KeptClaim)]) -> Result<Conflicts, NoMemory>
    ensures { AllPairs (λ a b. a.1.signer ≢ b.1.signer) pairs.now → IfOk result (λ c. c.pairs ≡ pairs.now) }
{
    let mut conflicts = Conflicts::new(alloc);
    keep_each(&mut conflicts, pairs)?;
    Ok(conflicts)
}
