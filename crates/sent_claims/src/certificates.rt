//! The claims of a pool's certificates, put into a list.
ghost use Rattle.std.specs.Prelude.{◌≡◌, ◌≤◌, ◌∷◌, [], take, false, flat_map, IsOk, OnOk};
ghost use Rattle.std.specs.List.{range_with_len};
ghost use Rattle.message_defs.specs.Spelling.{IsClaim};
ghost use Rattle.message_defs.specs.Packing.{signed_of};
ghost use Rattle.group_defs.specs.Sending.{message_certificates, place_certificates};
ghost use Rattle.stmt_codec.specs.Views.{message, slot as slot_at, claim as claim_of};
ghost use Rattle.sent_claims.specs.Lists.{added, extended};
ghost use Rattle.sent_claims.specs.Certificates.{all_signed, certificate_of, message_certificate, messages_at, said_by, IsRanged};

use crate::list::{Lent, SentClaims};
use pool_questions::{CertKind, Keep, Message, Place, Pool, certified_batch};
use rp_base::{NoMemory, Pid, PidSet};
use stmt_codec::{Batch, Claim, STATEMENT_BYTES, Slot, spell_into};
use view_table::quorum;

/// How many places an answer goes over.
const ANSWERED: u16 = 8;

/// Puts the claim after the others; and only where it is not among them, where each is to be there once.
pub(crate) fn put_claim(
    list: &mut SentClaims,
    claim: &Claim<'_>,
    once: bool,
) -> Result<(), NoMemory>
    requires { IsClaim (claim_of claim.now) }
    ensures { OnOk result (list.new ≡ added once list.old (signed_of (claim_of claim.now))) }
{
    let mut spelled = [0; STATEMENT_BYTES];
    let said = spell_into(&claim.statement, &mut spelled);
    let lent = Lent {
        signer: claim.signer,
        statement: &spelled[..said],
        signature: claim.signature,
    };
    list.put(&lent, once)
}

// Puts what the member says there, where it says something.
fn put_said(
    list: &mut SentClaims,
    pool: &Pool,
    member: Pid,
    kind: u8,
    about: &Slot,
    once: bool,
) -> Result<(), NoMemory>
    requires { IsRanged pool.now.pool }
    ensures list { OnOk result (list.new ≡ extended once list.old (all_signed (said_by pool.now.pool (slot_at kind about.now) (member ∷ [])))) }
    ensures none { all_signed (said_by pool.now.pool (slot_at kind about.now) (member ∷ [])) ≡ [] → IsOk result }
{
    match pool.heard_claim(member, kind, *about) {
        Some(claim) => put_claim(list, &claim, once),
        None => Ok(()),
    }
}

// Puts what the first `count` of the members say there, by process number.
fn put_first(
    list: &mut SentClaims,
    pool: &Pool,
    members: PidSet,
    count: usize,
    kind: u8,
    about: &Slot,
    once: bool,
) -> Result<(), NoMemory>
    requires { IsRanged pool.now.pool }
    ensures list { OnOk result (list.new
        ≡ extended once list.old (all_signed (said_by pool.now.pool (slot_at kind about.now) (take count members)))) }
    ensures none { all_signed (said_by pool.now.pool (slot_at kind about.now) (take count members)) ≡ [] → IsOk result }
{
    let mut left = members;
    'members: for _done in 0..count {
        let Some(member) = left.pop_first() else {
            return Ok(());
        };
        put_said(list, pool, member, kind, about, once)?;
    }
    Ok(())
}

/// Puts the claims of the certificate of that kind and slot, of the first Q signers by process number, after the others of the list;
/// with `once`, only those that are not among them. None where nothing is certified there, or the kind has no such slots, and then no memory
/// is taken.
pub fn put_certificate<K: CertKind>(
    list: &mut SentClaims,
    pool: &Pool,
    about: &Slot,
    once: bool,
) -> Result<(), NoMemory>
    requires { IsRanged pool.now.pool }
    ensures list { OnOk result (list.new ≡ extended once list.old (all_signed (certificate_of pool.now.pool (slot_at K.kind about.now)))) }
    ensures none { all_signed (certificate_of pool.now.pool (slot_at K.kind about.now)) ≡ [] → IsOk result }
{
    let Some(certificate) = pool.certificate::<K>(*about) else {
        return Ok(());
    };
    let count = quorum(pool.view().members().len());
    put_first(
        list,
        pool,
        certificate.signers(),
        count,
        K::number(),
        about,
        once,
    )
}

// Puts the certificate of the message.
fn put_message(
    list: &mut SentClaims,
    pool: &Pool,
    sender: Pid,
    number: u16,
    once: bool,
) -> Result<(), NoMemory>
    requires { IsRanged pool.now.pool }
    ensures list { OnOk result (list.new ≡ extended once list.old (all_signed (message_certificate pool.now.pool (message sender number)))) }
    ensures none { all_signed (message_certificate pool.now.pool (message sender number)) ≡ [] → IsOk result }
{
    let about = Slot::Message {
        view: pool.view().number(),
        sender,
        number,
    };
    put_certificate::<Message>(list, pool, &about, once)
}

/// Puts the certificates of the batch's messages, in its order.
pub(crate) fn put_messages(
    list: &mut SentClaims,
    pool: &Pool,
    batch: &Batch,
    once: bool,
) -> Result<(), NoMemory>
    requires { IsRanged pool.now.pool }
    ensures list { OnOk result (list.new ≡ extended once list.old (all_signed (message_certificates pool.now.pool batch.now))) }
    ensures none { all_signed (message_certificates pool.now.pool batch.now) ≡ [] → IsOk result }
{
    'messages: for (sender, number) in batch.messages() {
        put_message(list, pool, *sender, *number, once)?;
    }
    Ok(())
}

// Puts the certificates of the messages of the batch that is certified of the place, where one is.
fn put_placed(list: &mut SentClaims, pool: &Pool, place: u16) -> Result<(), NoMemory>
    requires { IsRanged pool.now.pool }
    ensures list { OnOk result (list.new ≡ extended false list.old (all_signed (messages_at pool.now.pool place))) }
    ensures none { all_signed (messages_at pool.now.pool place) ≡ [] → IsOk result }
{
    match certified_batch(pool, place) {
        Some(batch) => put_messages(list, pool, &batch, false),
        None => Ok(()),
    }
}

// Puts the certificates of the place: its own, those of its messages, and the Keep.
fn put_place(list: &mut SentClaims, pool: &Pool, place: u16) -> Result<(), NoMemory>
    requires { IsRanged pool.now.pool }
    ensures list { OnOk result (list.new ≡ extended false list.old (all_signed (place_certificates pool.now.pool place))) }
    ensures none { all_signed (place_certificates pool.now.pool place) ≡ [] → IsOk result }
{
    let view = pool.view().number();
    let about = Slot::Place { view, place };
    put_certificate::<Place>(list, pool, &about, false)?;
    put_placed(list, pool, place)?;
    put_certificate::<Keep>(list, pool, &about, false)
}

/// Puts the certificates of eight places, from this one on, after the claims of the list. The first place is 0 to 1,024. Where there
/// are none, it takes no memory.
pub fn put_places(list: &mut SentClaims, pool: &Pool, place: u16) -> Result<(), NoMemory>
    requires range { IsRanged pool.now.pool }
    requires place { place ≤ 1024 }
    ensures list { OnOk result (list.new
        ≡ extended false list.old (all_signed (flat_map (place_certificates pool.now.pool) (range_with_len place 8)))) }
    ensures none { all_signed (flat_map (place_certificates pool.now.pool) (range_with_len place 8)) ≡ [] → IsOk result }
{
    'places: for next in place..place + ANSWERED {
        put_place(list, pool, next)?;
    }
    Ok(())
}
