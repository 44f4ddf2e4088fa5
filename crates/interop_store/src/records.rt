//! What bytes say as a record that a member signs.
ghost use Rattle.std.specs.Prelude.{◌≡◌, ◌++◌, IfOk, OnOk};
ghost use Rattle.store_defs.specs.Records.{IsStateRecord};
ghost use Rattle.store_defs.specs.Stores as stores;
ghost use Rattle.store_defs.specs.Stores.{IsStore, store_bytes};
ghost use Rattle.store_records.specs.Views.{reply as reply_in, state_record as record_in};
ghost use Rattle.interop_store.specs.Telling as plain;
ghost use Rattle.interop_store.specs.Telling.{content_words, position_words, reply_answer, state_answer};

use crate::words::{push_next_bytes, push_next_number};
use kv_service::Store;
use rp_base::NoMemory;
use std::alloc::Global;
use store_records::{Reply, StateRecord, read_reply, read_state};

// ---- replies

// The signer, the view, the place and the position.
fn push_position(out: &mut Vec<u8>, reply: &Reply<'_>) -> Result<(), NoMemory>
    ensures { OnOk result (out.new.items ≡ out.old.items ++ position_words (reply_in reply.now)) }
{
    push_next_number(out, reply.signer.get().into())?;
    push_next_number(out, reply.view.into())?;
    push_next_number(out, reply.place.into())?;
    push_next_number(out, reply.position.into())
}

// The payload, the answer and the signature.
fn push_content(out: &mut Vec<u8>, reply: &Reply<'_>) -> Result<(), NoMemory>
    ensures { OnOk result (out.new.items ≡ out.old.items ++ content_words (reply_in reply.now)) }
{
    push_next_bytes(out, reply.payload)?;
    push_next_bytes(out, reply.answer)?;
    push_next_bytes(out, reply.signature)
}

fn reply_words(alloc: Global, reply: &Reply<'_>) -> Result<Vec<u8>, NoMemory>
    ensures { IfOk result (λ reported. reported.items ≡ plain.reply_words (reply_in reply.now)) }
{
    let mut reported = b"reply".to_vec(alloc)?;
    push_position(&mut reported, reply)?;
    push_content(&mut reported, reply)?;
    Ok(reported)
}

/// What the bytes say as a reply: `reply SIGNER VIEW PLACE POSITION PAYLOAD ANSWER SIGNATURE`, or `noreply`.
pub(crate) fn answer_reply(alloc: Global, bytes: &[u8]) -> Result<Vec<u8>, NoMemory>
    ensures { IfOk result (λ reported. reported.items ≡ reply_answer bytes.now) }
{
    match read_reply(bytes) {
        Some(reply) => reply_words(alloc, &reply),
        None => Ok(b"noreply".to_vec(alloc)?),
    }
}

// ---- states

// A store's spelling, made again from the store that was read of it.
fn spelled_again(alloc: Global, state: &[u8]) -> Result<Vec<u8>, NoMemory>
    requires { (s : stores.Store) × IsStore s × (state.now ≡ store_bytes s) }
    ensures { IfOk result (λ again. again.items ≡ state.now) }
{
    let Some(store) = Store::of_state(alloc, state)? else {
        unreachable!();
    };
    let mut again = Vec::new(alloc);
    store.state_into(&mut again)?;
    Ok(again)
}

fn state_words(alloc: Global, given: &StateRecord<'_>) -> Result<Vec<u8>, NoMemory>
    requires { IsStateRecord (record_in given.now) }
    ensures { IfOk result (λ reported. reported.items ≡ plain.state_words (record_in given.now)) }
{
    let state = spelled_again(alloc, given.state)?;
    let mut reported = b"state".to_vec(alloc)?;
    push_next_number(&mut reported, given.signer.get().into())?;
    push_next_number(&mut reported, given.view.into())?;
    push_next_bytes(&mut reported, &state)?;
    push_next_bytes(&mut reported, given.signature)?;
    Ok(reported)
}

/// What the bytes say as a state record: `state SIGNER VIEW STATE SIGNATURE`, with the store's spelling made again from what was read; or
/// `nostate`.
pub(crate) fn answer_state(alloc: Global, bytes: &[u8]) -> Result<Vec<u8>, NoMemory>
    ensures { IfOk result (λ reported. reported.items ≡ state_answer bytes.now) }
{
    match read_state(bytes) {
        Some(given) => state_words(alloc, &given),
        None => Ok(b"nostate".to_vec(alloc)?),
    }
}
