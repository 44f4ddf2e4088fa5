//! The line of a reply: its answer, its record and its signature.
ghost use Rattle.std.specs.Prelude.{◌≡◌, ◌⊎◌, ◌≤◌, ◌<◌, ◌+◌, ◌++◌, ◌∷◌, [], length, min, OnOk, OnErr, IfOk, IfSome, None, Some, option_map};
ghost use Rattle.store_defs.specs.Records.{IsReply, reply_body, reply_bytes};
ghost use Rattle.store_defs.specs.Serving.{ReportedReply};
ghost use Rattle.store_defs.specs.Stores.{answer_to, applied};
ghost use Rattle.store_defs.specs.Words.{reported_text};
ghost use Rattle.store_keys.specs.Keys.{next, signs};
ghost use Rattle.store_records.specs.Views.{reply as reply_of};
ghost use Rattle.store_replies.specs.Words.{most_counted, word_of, word_with};

use kv_service::Store;
use rp_base::{GroupId, NoMemory};
use std::alloc::Global;
use store_keys::LeafKey;
use store_records::{Reply, push_reply, push_reply_body};
use store_words::{push_hex_line, push_line};

const REPLY: &[u8] = b"reply";

/// Carries the payload out in the store, where there is one; its answer.
pub(crate) fn answer(
    store: &mut Option<Store>,
    alloc: Global,
    payload: &[u8],
) -> Result<Option<Vec<u8>>, NoMemory>
    ensures answered { IfOk result (λ a. option_map (λ b. b.items) a ≡ option_map (λ s. answer_to s payload.now) store.old) }
    ensures short { IfOk result (λ a. IfSome a (λ b. length b.items ≤ 513)) }
    ensures applied { OnOk result (store.new ≡ option_map (λ s. (applied s payload.now).1) store.old) }
    ensures unchanged { OnErr result (store.new ≡ store.old) }
{
    let Some(store) = store else {
        return Ok(None);
    };
    let mut answer = Vec::new(alloc);
    store.apply(alloc, payload, &mut answer)?;
    Ok(Some(answer))
}

// The signature of the reply with this leaf, on which nothing was signed yet.
fn sign(
    key: &mut LeafKey,
    alloc: Global,
    group: &GroupId,
    leaf: u32,
    reply: &Reply<'_>,
) -> Result<Vec<u8>, NoMemory>
    requires fits { IsReply (reply_of reply.now) }
    requires unused { next key.old ≤ leaf }
    requires within { leaf < (signs key.old).total }
    ensures signed { IfOk result (λ s. s.items ≡ (signs key.old).signature leaf (reply_body group.now (reply_of reply.now))) }
    ensures short { IfOk result (λ s. length s.items ≤ 16384) }
    ensures next { next key.new ≤ leaf + 1 }
    ensures signs { signs key.new ≡ signs key.old }
{
    let mut body = Vec::new(alloc);
    push_reply_body(&mut body, group, reply)?;
    let mut signature = vec![in alloc; 0; key.most()]?;
    let count = key.sign(leaf, &body, &mut signature);
    signature.truncate(count);
    Ok(signature)
}

// The record of the reply, with this signature.
fn record_of(alloc: Global, reply: &Reply<'_>, signature: &[u8]) -> Result<Vec<u8>, NoMemory>
    requires fits { IsReply (reply_of reply.now) }
    requires short { length signature.now ≤ 16384 }
    ensures { IfOk result (λ b. b.items ≡ reply_bytes (record (reply_of reply.now) { signature = signature.now })) }
{
    let mut record = Vec::new(alloc);
    let signed = Reply {
        signer: reply.signer,
        view: reply.view,
        place: reply.place,
        position: reply.position,
        payload: reply.payload,
        answer: reply.answer,
        signature,
    };
    push_reply(&mut record, &signed)?;
    Ok(record)
}

// Appends the line of a reply that has an answer: signed with the leaf of this number, or that there is none.
#[tactic(auto, unfolding(crate::specs::Words::most_counted))]
fn say(
    key: &mut LeafKey,
    alloc: Global,
    group: &GroupId,
    leaf: u32,
    reply: &Reply<'_>,
    out: &mut Vec<u8>,
) -> Result<(), NoMemory>
    requires fits { IsReply (reply_of reply.now) }
    requires unused { next key.old ≤ leaf }
    ensures reported { OnOk result (out.new.items
        ≡ out.old.items ++ reported_text reply.now.signer (ReportedReply (word_with (signs key.old) group.now leaf (reply_of reply.now)))) }
    ensures untold { OnErr result (out.new.items ≡ out.old.items) }
    ensures next { next key.new ≤ min (leaf + 1) most_counted }
    ensures signs { signs key.new ≡ signs key.old }
{
    if leaf >= key.total() {
        return push_line(out, REPLY, reply.signer, b"spent");
    }
    let signature = sign(key, alloc, group, leaf, reply)?;
    let record = record_of(alloc, reply, &signature)?;
    push_hex_line(out, REPLY, reply.signer, &record)
}

/// Appends the line of a reply that has all but answer and signature: that there is no store, where there is no answer, or the
/// answered reply, signed with the leaf of this number, or that there is no such leaf.
#[tactic(auto, unfolding(crate::specs::Words::most_counted))]
pub(crate) fn tell(
    key: &mut LeafKey,
    alloc: Global,
    group: &GroupId,
    leaf: u32,
    asked: &Reply<'_>,
    answer: &Option<Vec<u8>>,
    out: &mut Vec<u8>,
) -> Result<(), NoMemory>
    requires fits { IsReply (reply_of asked.now) }
    requires short { IfSome answer.now (λ b. length b.items ≤ 513) }
    requires unused { next key.old ≤ leaf }
    ensures reported { OnOk result (out.new.items ≡ out.old.items ++ reported_text asked.now.signer (ReportedReply
        (word_of (signs key.old) group.now leaf (reply_of asked.now) (option_map (λ b. b.items) answer.now)))) }
    ensures untold { OnErr result (out.new.items ≡ out.old.items) }
    ensures next { next key.new ≤ min (leaf + 1) most_counted }
    ensures signs { signs key.new ≡ signs key.old }
{
    let Some(answer) = answer else {
        return push_line(out, REPLY, asked.signer, b"none");
    };
    let reply = Reply {
        signer: asked.signer,
        view: asked.view,
        place: asked.place,
        position: asked.position,
        payload: asked.payload,
        answer,
        signature: asked.signature,
    };
    say(key, alloc, group, leaf, &reply, out)
}
