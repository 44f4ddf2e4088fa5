//! What a pool answers of the claims that were handed to it.
ghost use Rattle.std.specs.Prelude.{◌≡◌, ◌++◌, length, OnOk};
ghost use Rattle.std.specs.List.{flat_map, AllByRecursion};
ghost use Rattle.std.specs.Fmt.{decimal};
ghost use Rattle.message_defs.specs.Spelling.{IsClaim, IsStatement};
ghost use Rattle.message_defs.specs.Statements as plain;
ghost use Rattle.group_defs.specs.Certified.{backers, certified_on};
ghost use Rattle.stmt_codec.specs.Views.{stmt, claim as claim_of};
ghost use Rattle.stmt_codec.specs.Left.{claims_left};
ghost use Rattle.interop_pool.specs.Telling as words;

use claim_pool::{Ack, CertKind, Commit, Keep, Message, Place, Pool};
use pool_questions::removed_rank;
use rp_base::{NoMemory, PidSet};
use stmt_codec::{Claim, Claims, Statement, conflicts, slot_of};
use text_codec::push_number;

fn push_word(out: &mut Vec<u8>, word: &[u8]) -> Result<(), NoMemory>
    ensures { OnOk result (out.new.items ≡ out.old.items ++ word.now) }
{
    out.extend_from_slice(word)?;
    Ok(())
}

// Each process after a space, by rising number.
pub(crate) fn push_signers(out: &mut Vec<u8>, signers: PidSet) -> Result<(), NoMemory>
    ensures { OnOk result (out.new.items ≡ out.old.items ++ flat_map words.signer_word signers) }
{
    let mut left = signers;
    'signers: while let Some(signer) = left.pop_first() {
        out.extend_from_slice(b" ")?;
        push_number(out, signer.get().into())?;
    }
    Ok(())
}

fn same_word(is_same: bool) -> &'static [u8]
    ensures { result.now ≡ words.same_word is_same }
{
    if is_same { b" same" } else { b" other" }
}

// The certificate of the statement's slot, which is of this kind: whether it says the statement, and who says it.
fn push_certificate<K: CertKind>(
    out: &mut Vec<u8>,
    pool: &Pool,
    statement: &Statement<'_>,
) -> Result<(), NoMemory>
    requires { K.kind ≡ plain.kind_number (stmt statement.now) }
    ensures { OnOk result (out.new.items ≡ out.old.items ++ words.certificate_words pool.now.pool (stmt statement.now)
        (certified_on pool.now.pool (plain.slot_of (stmt statement.now)))) }
{
    let Some(certificate) = pool.certificate::<K>(slot_of(statement)) else {
        return push_word(out, b" none");
    };
    out.extend_from_slice(same_word(!conflicts(certificate.content(), statement)))?;
    push_signers(out, certificate.signers())
}

fn notified_word(is_notified: bool) -> &'static [u8]
    ensures { result.now ≡ words.notified_word is_notified }
{
    if is_notified { b" notified" } else { b" few" }
}

// The certificate of the statement's slot, where certificates are made of its kind, or whether a Notify's update is notified.
fn push_slot(out: &mut Vec<u8>, pool: &Pool, statement: &Statement<'_>) -> Result<(), NoMemory>
    ensures { OnOk result (out.new.items ≡ out.old.items ++ words.slot_words pool.now.pool (stmt statement.now)) }
{
    match statement {
        Statement::Echo { .. } => push_certificate::<Message>(out, pool, statement),
        Statement::Place { .. } => push_certificate::<Place>(out, pool, statement),
        Statement::Keep { .. } => push_certificate::<Keep>(out, pool, statement),
        Statement::Ack { .. } => push_certificate::<Ack>(out, pool, statement),
        Statement::Ready { .. } => push_certificate::<Commit>(out, pool, statement),
        Statement::Notify { update, .. } => {
            push_word(out, notified_word(pool.is_notified(*update)))
        }
        _ => Ok(()),
    }
}

// How many members say the claim's statement, and what is heard of its slot.
fn push_claim(out: &mut Vec<u8>, pool: &Pool, claim: &Claim<'_>) -> Result<(), NoMemory>
    requires { IsClaim (claim_of claim.now) }
    ensures { OnOk result (out.new.items ≡ out.old.items ++ words.claim_words pool.now.pool (claim_of claim.now)) }
{
    out.extend_from_slice(b" count ")?;
    push_number(out, pool.count(&claim.statement).into())?;
    push_slot(out, pool, &claim.statement)
}

/// Writes what is heard of each claim's slot.
pub(crate) fn push_claims(
    out: &mut Vec<u8>,
    pool: &Pool,
    claims: Claims<'_>,
) -> Result<(), NoMemory>
    requires { AllByRecursion IsClaim (claims_left claims) }
    ensures { OnOk result (out.new.items ≡ out.old.items ++ flat_map (words.claim_words pool.now.pool) (claims_left claims.entry)) }
{
    let mut left = claims;
    'claims: while let Some(claim) = left.next() {
        push_claim(out, pool, &claim)?;
    }
    Ok(())
}

/// Writes the placed length, the fixed length, and the greatest rank below which each member is to be removed.
pub(crate) fn push_totals(out: &mut Vec<u8>, pool: &Pool) -> Result<(), NoMemory>
    ensures { OnOk result (out.new.items ≡ out.old.items ++ words.total_words pool.now.pool) }
{
    out.extend_from_slice(b" placed ")?;
    push_number(out, pool.placed_len().into())?;
    out.extend_from_slice(b" fixed ")?;
    push_number(out, pool.fixed_len().into())?;
    out.extend_from_slice(b" removed ")?;
    push_number(out, removed_rank(pool).into())
}
