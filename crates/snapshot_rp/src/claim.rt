ghost use Rattle.std.specs.Prelude.{◌≡◌, ◌++◌, ◌∷◌, IsOk, OnOk};
ghost use Rattle.byte_defs.specs.Fields.{text};
ghost use Rattle.byte_defs.specs.Reads.{Makes};
ghost use Rattle.image_defs.specs.Spelling.{claim_bytes};
ghost use Rattle.message_defs.specs.Reading.{statement_of};
ghost use Rattle.snapshot_defs.specs.Reading.{claim_at};
ghost use Rattle.snapshot_rp.specs.Claims.{kept};
ghost use Rattle.snapshot_rp.specs.Faults.{left_of};

use crate::cursor::Cursor;
use crate::fault::ReadError;
use crate::pushing::push_text;
use member_events::{Claim, SIGNATURE_BYTES, STATEMENT_BYTES, read_statement, spell_into};
use rp_base::{NoMemory, Pid};
use std::alloc::Global;
use std::marker::Model;

/// A claim that an image keeps. Contracts see it as the claim: only bytes that are a statement are kept as one.
#[derive(Drop)]
pub struct KeptClaim {
    signer: Pid,
    statement: Vec<u8>,
    signature: Vec<u8>,
}

impl Model for KeptClaim {
    ghost use Rattle.std.specs.Prelude.{◌≤◌, length, IsOk};
    ghost use Rattle.message_defs.specs.Limits.{most_signature_bytes};
    ghost use Rattle.message_defs.specs.Reading.{statement_of};
    ghost use Rattle.message_defs.specs.Statements.{Claim};
    ghost use Rattle.snapshot_rp.specs.Claims.{kept};

    ghost Value = { Claim };

    ghost view = { λ c. kept c.signer c.statement.items c.signature.items };

    ghost invariant = { λ c. IsOk (statement_of c.statement.items) × (length c.signature.items ≤ most_signature_bytes) };
}

/// Signer, statement and signature, the last two after their lengths.
#[tactic(auto, unfolding(snapshot_defs::specs::Reading::claim_at))]
pub(crate) fn read_claim(alloc: Global, cursor: &mut Cursor<'_>) -> Result<KeptClaim, ReadError>
    ensures { Makes left_of (λ c. (c, cursor.new.rest.now)) result (claim_at cursor.old.rest.now) }
{
    let signer = cursor.process()?;
    let statement = cursor.statement()?;
    let signature = cursor.text_to(SIGNATURE_BYTES)?;
    let statement = statement.to_vec(alloc)?;
    let signature = signature.to_vec(alloc)?;
    Ok(KeptClaim {
        signer,
        statement,
        signature,
    })
}

// The signer, and both after their lengths.
fn push_parts(
    out: &mut Vec<u8>,
    signer: Pid,
    statement: &[u8],
    signature: &[u8],
) -> Result<(), NoMemory>
    ensures { OnOk result (out.new.items ≡ out.old.items ++ signer ∷ (text statement.now ++ text signature.now)) }
{
    out.push(signer.get())?;
    push_text(out, statement)?;
    push_text(out, signature)
}

fn push_kept(
    out: &mut Vec<u8>,
    signer: Pid,
    statement: &[u8],
    signature: &[u8],
) -> Result<(), NoMemory>
    requires { IsOk (statement_of statement.now) }
    ensures { OnOk result (out.new.items ≡ out.old.items ++ claim_bytes (kept signer statement.now signature.now)) }
{
    push_parts(out, signer, statement, signature)
}

/// Signer, statement and signature, the last two after their lengths.
pub(crate) fn push_claim(out: &mut Vec<u8>, claim: &KeptClaim) -> Result<(), NoMemory>
    ensures { OnOk result (out.new.items ≡ out.old.items ++ claim_bytes claim.now) }
{
    push_kept(
        out,
        claim.signer,
        claim.statement.as_slice(),
        claim.signature.as_slice(),
    )
}

impl KeptClaim {
    ghost use Rattle.std.specs.Prelude.{◌≡◌, IfOk};
    ghost use Rattle.message_defs.specs.Spelling.{IsClaim};
    ghost use Rattle.member_events.specs.Below.{claim as claim_of};

    /// Keeps the claim.
    ///
    /// # Errors
    /// [`NoMemory`] where room for its bytes is refused.
    pub fn new(alloc: Global, claim: &Claim<'_>) -> Result<KeptClaim, NoMemory>
        requires { IsClaim (claim_of claim.now) }
        ensures { IfOk result (λ kept. kept ≡ claim_of claim.now) }
    {
        let mut statement = [0; STATEMENT_BYTES];
        let len = spell_into(&claim.statement, &mut statement);
        let statement = statement[..len].to_vec(alloc)?;
        let signature = claim.signature.to_vec(alloc)?;
        Ok(KeptClaim {
            signer: claim.signer,
            statement,
            signature,
        })
    }

    /// The claim, borrowed.
    pub fn claim(&self) -> Claim<'_>
        ensures value { claim_of result ≡ self.now }
        ensures range { IsClaim (claim_of result) }
    {
        let _number = self.signer.get();
        let Ok(statement) = read_statement(self.statement.as_slice()) else {
            unreachable!();
        };
        Claim {
            signer: self.signer,
            statement,
            signature: self.signature.as_slice(),
        }
    }

    /// Who signed.
    pub fn signer(&self) -> Pid
        ensures { result ≡ self.now.signer }
    {
        self.signer
    }
}
