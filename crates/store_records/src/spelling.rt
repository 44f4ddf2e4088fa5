//! Replies and states as they are written, and the body of each that is signed.
ghost use Rattle.std.specs.Prelude.{◌≡◌, ◌+◌, ◌<◌, ◌≤◌, ◌^◌, ◌++◌, ◌∷◌, [], length, vec_len, vec_capacity, OnOk, OnErr};
ghost use Rattle.byte_defs.specs.Fields.{text};
ghost use Rattle.store_defs.specs.Records.{IsReply, IsStateRecord, reply_bytes, reply_body, reply_fields, state_bytes, state_body, state_fields};
ghost use Rattle.store_records.specs.Views.{reply as reply_of, state_record as state_of};

use crate::reply::Reply;
use crate::state::StateRecord;
use rp_base::{GroupId, NoMemory};

const REPLY_LETTERS: &[u8; 4] = b"RPR1";

const STATE_LETTERS: &[u8; 4] = b"RPT1";

const GROUP_BYTES: usize = 16;

// The signer, the view, the place and the position.
const REPLY_HEAD: usize = 6;

const LENGTH_BYTES: usize = 2;

// The signer, the view and the length of the state.
const STATE_HEAD: usize = 7;

// These bytes, for which there is room.
fn append(out: &mut Vec<u8>, bytes: &[u8])
    requires room { vec_len out.old + length bytes.now ≤ vec_capacity out.old }
    ensures items { out.new.items ≡ out.old.items ++ bytes.now }
    ensures capacity { vec_capacity out.old ≤ vec_capacity out.new }
{
    let Ok(()) = out.extend_from_slice(bytes) else {
        unreachable!();
    };
}

// Two bytes of length and these bytes, for which there is room.
fn append_text(out: &mut Vec<u8>, bytes: &[u8])
    requires fits { length bytes.now < 2 ^ 16 }
    requires room { vec_len out.old + (2 + length bytes.now) ≤ vec_capacity out.old }
    ensures items { out.new.items ≡ out.old.items ++ text bytes.now }
    ensures capacity { vec_capacity out.old ≤ vec_capacity out.new }
{
    append(out, &(bytes.len() as u16).to_be_bytes());
    append(out, bytes);
}

// What is signed of a reply after letters and group, for which there is room.
fn append_fields(out: &mut Vec<u8>, reply: &Reply<'_>)
    requires fits { IsReply (reply_of reply.now) }
    requires room { vec_len out.old + (6 + (2 + length reply.now.payload.now + (2 + length reply.now.answer.now))) ≤ vec_capacity out.old }
    ensures items { out.new.items ≡ out.old.items ++ reply_fields (reply_of reply.now) }
    ensures capacity { vec_capacity out.old ≤ vec_capacity out.new }
{
    let [view_high, view_low] = reply.view.to_be_bytes();
    let [place_high, place_low] = reply.place.to_be_bytes();
    let head = [
        reply.signer.get(),
        view_high,
        view_low,
        place_high,
        place_low,
        reply.position,
    ];
    append(out, &head);
    append_text(out, reply.payload);
    append_text(out, reply.answer);
}

// How many bytes those fields have.
fn fields_length(reply: &Reply<'_>) -> usize
    requires fits { IsReply (reply_of reply.now) }
    ensures length { result ≡ 6 + (2 + length reply.now.payload.now + (2 + length reply.now.answer.now)) }
    ensures small { result < 2 ^ 16 }
{
    REPLY_HEAD + (LENGTH_BYTES + reply.payload.len() + (LENGTH_BYTES + reply.answer.len()))
}

/// Appends the record of a reply whose fields are in their ranges (those of [`Reply`]).
///
/// # Errors
/// [`NoMemory`] where room for it is refused; nothing is appended then.
pub fn push_reply(out: &mut Vec<u8>, reply: &Reply<'_>) -> Result<(), NoMemory>
    requires { IsReply (reply_of reply.now) }
    ensures pushed { OnOk result (out.new.items ≡ out.old.items ++ reply_bytes (reply_of reply.now)) }
    ensures unchanged { OnErr result (out.new.items ≡ out.old.items) }
{
    out.reserve(fields_length(reply) + (LENGTH_BYTES + reply.signature.len()))?;
    append_fields(out, reply);
    append_text(out, reply.signature);
    Ok(())
}

/// Appends what is signed of a reply whose fields are in their ranges (those of [`Reply`]): the letters, the group and the fields, without
/// the signature.
///
/// # Errors
/// [`NoMemory`] where room for it is refused; nothing is appended then.
#[tactic(auto, unfolding(store_defs::specs::Records::reply_body))]
pub fn push_reply_body(
    out: &mut Vec<u8>,
    group: &GroupId,
    reply: &Reply<'_>,
) -> Result<(), NoMemory>
    requires { IsReply (reply_of reply.now) }
    ensures pushed { OnOk result (out.new.items ≡ out.old.items ++ reply_body group.now (reply_of reply.now)) }
    ensures unchanged { OnErr result (out.new.items ≡ out.old.items) }
{
    out.reserve(REPLY_LETTERS.len() + (GROUP_BYTES + fields_length(reply)))?;
    append(out, REPLY_LETTERS);
    append(out, &group.0);
    append_fields(out, reply);
    Ok(())
}

// What is signed of a state after letters and group, for which there is room.
fn append_state_fields(out: &mut Vec<u8>, given: &StateRecord<'_>)
    requires fits { length given.now.state.now < 2 ^ 32 }
    requires room { vec_len out.old + (7 + length given.now.state.now) ≤ vec_capacity out.old }
    ensures items { out.new.items ≡ out.old.items ++ state_fields (state_of given.now) }
    ensures capacity { vec_capacity out.old ≤ vec_capacity out.new }
{
    let [view_high, view_low] = given.view.to_be_bytes();
    append(out, &[given.signer.get(), view_high, view_low]);
    append(out, &(given.state.len() as u32).to_be_bytes());
    append(out, given.state);
}

/// Appends the record of a state whose fields are in their ranges (those of [`StateRecord`]).
///
/// # Errors
/// [`NoMemory`] where room for it is refused; nothing is appended then.
pub fn push_state(out: &mut Vec<u8>, given: &StateRecord<'_>) -> Result<(), NoMemory>
    requires { IsStateRecord (state_of given.now) }
    ensures pushed { OnOk result (out.new.items ≡ out.old.items ++ state_bytes (state_of given.now)) }
    ensures unchanged { OnErr result (out.new.items ≡ out.old.items) }
{
    out.reserve(STATE_HEAD + (given.state.len() + (LENGTH_BYTES + given.signature.len())))?;
    append_state_fields(out, given);
    append_text(out, given.signature);
    Ok(())
}

/// Appends what is signed of a state whose fields are in their ranges (those of [`StateRecord`]): the letters, the group and the fields,
/// without the signature.
///
/// # Errors
/// [`NoMemory`] where room for it is refused; nothing is appended then.
#[tactic(auto, unfolding(store_defs::specs::Records::state_body))]
pub fn push_state_body(
    out: &mut Vec<u8>,
    group: &GroupId,
    given: &StateRecord<'_>,
) -> Result<(), NoMemory>
    requires { IsStateRecord (state_of given.now) }
    ensures pushed { OnOk result (out.new.items ≡ out.old.items ++ state_body group.now (state_of given.now)) }
    ensures unchanged { OnErr result (out.new.items ≡ out.old.items) }
{
    out.reserve(STATE_LETTERS.len() + (GROUP_BYTES + (STATE_HEAD + given.state.len())))?;
    append(out, STATE_LETTERS);
    append(out, &group.0);
    append_state_fields(out, given);
    Ok(())
}
