//! Convictions that outlive the journals: their claims with bytes of their own.
ghost use Rattle.std.specs.Prelude.{◌≡◌, IfOk, map};
ghost use Rattle.std.specs.List.{AllByRecursion};
ghost use Rattle.message_defs.specs.Packing.{signed_of};
ghost use Rattle.message_defs.specs.Spelling.{IsStatement, spelling};
ghost use Rattle.stmt_codec.specs.Views.{claim as claim_of, signed, stmt};
ghost use Rattle.claim_firsts.specs.Reported.{AreSpelled, conviction as conviction_in};
ghost use Rattle.audit_core.specs.Found.{shown, shown_of};

use audit_cast::Conviction as Lent;
use findings_json::Conviction;
use rp_base::NoMemory;
use std::alloc::Global;
use stmt_codec::{Claim, OwnClaim, Payload, STATEMENT_BYTES, Statement, spell_into};

// These bytes.
fn owned(alloc: Global, bytes: &[u8]) -> Result<Payload, NoMemory>
    ensures { IfOk result (λ own. own ≡ bytes.now) }
{
    Ok(Payload::from_vec(Vec::from_slice(alloc, bytes)?))
}

// The statement's bytes.
fn spelled(alloc: Global, statement: &Statement<'_>) -> Result<Payload, NoMemory>
    requires { IsStatement (stmt statement.now) }
    ensures { IfOk result (λ own. own ≡ spelling (stmt statement.now)) }
{
    let mut room = [0; STATEMENT_BYTES];
    let len = spell_into(statement, &mut room);
    owned(alloc, &room[..len])
}

// The claim, with bytes of its own.
fn own_claim(alloc: Global, claim: &Claim<'_>) -> Result<OwnClaim, NoMemory>
    requires { IsStatement (stmt claim.now.statement) }
    ensures { IfOk result (λ own. signed own ≡ signed_of (claim_of claim.now)) }
{
    let statement = spelled(alloc, &claim.statement)?;
    let signature = owned(alloc, claim.signature)?;
    Ok(OwnClaim {
        signer: claim.signer,
        statement,
        signature,
    })
}

// The conviction, with claims of its own.
fn own_conviction(alloc: Global, lent: &Lent<'_>) -> Result<Conviction, NoMemory>
    requires { AreSpelled lent.now }
    ensures { IfOk result (λ c. shown c ≡ shown_of (conviction_in lent.now)) }
{
    let first = own_claim(alloc, &lent.first)?;
    let second = own_claim(alloc, &lent.second)?;
    Ok(Conviction {
        process: lent.process,
        kind: lent.first.statement.kind(),
        first,
        second,
    })
}

/// The convictions, with claims of their own.
pub(crate) fn own_convictions(alloc: Global, lent: &[Lent<'_>]) -> Result<Vec<Conviction>, NoMemory>
    requires { AllByRecursion AreSpelled lent.now }
    ensures { IfOk result (λ all. map shown all.items ≡ map (λ c. shown_of (conviction_in c)) lent.now) }
{
    let mut all = Vec::new(alloc);
    for one in lent {
        all.push(own_conviction(alloc, one)?)?;
    }
    Ok(all)
}
