//! A reply record is what a member answers to the message at a position of a place:
//!
//! | Field | Bytes |
//! |---|---|
//! | signer | 1, at most 63 |
//! | view, place | 2 each, at most 1,023 |
//! | position | 1, at most 15 |
//! | payload | 2 of length, at most 1,024, and that many |
//! | answer | 2 of length, at most 513, and that many |
//! | signature | 2 of length, at most 16,384, and that many |
//!
//! What is signed is the letters `RPR1`, the group and these fields without the signature.
ghost use Rattle.std.specs.Prelude.{◌≡◌, IfSome, IsSomeAnd, Ok, Err};
ghost use Rattle.store_defs.specs.Records as plain;
ghost use Rattle.store_defs.specs.Records.{IsReply, reply_bytes, reply_of};
ghost use Rattle.store_records.specs.Views.{reply};
ghost use Rattle.store_records.specs.Finds.{Finds};

use crate::fields::{LAST_PROCESS, SIGNATURE_BYTES, short_at, small_at, text_within};
use rp_base::Pid;

/// A reply, whose bytes are borrowed.
#[derive(Clone, Copy)]
pub struct Reply<'a> {
    pub signer: Pid,
    pub view: u16,
    pub place: u16,
    pub position: u8,
    pub payload: &'a [u8],
    pub answer: &'a [u8],
    pub signature: &'a [u8],
}

const LAST_POSITION: u8 = 15;

const PAYLOAD_BYTES: u16 = 1024;

const ANSWER_BYTES: u16 = 513;

#[tactic(auto, unfolding(store_defs::specs::Records::reply_of))]
fn reply_in(bytes: &[u8]) -> Option<Reply<'_>>
    ensures { Finds reply result (reply_of bytes.now) }
{
    let (number, rest) = small_at(bytes, LAST_PROCESS).ok()?;
    let signer = Pid::new(number)?;
    let (view, rest) = short_at(rest).ok()?;
    let (place, rest) = short_at(rest).ok()?;
    let (position, rest) = small_at(rest, LAST_POSITION).ok()?;
    let (payload, rest) = text_within(rest, PAYLOAD_BYTES).ok()?;
    let (answer, rest) = text_within(rest, ANSWER_BYTES).ok()?;
    let (signature, rest) = text_within(rest, SIGNATURE_BYTES).ok()?;
    if !rest.is_empty() {
        return None;
    }
    Some(Reply {
        signer,
        view,
        place,
        position,
        payload,
        answer,
        signature,
    })
}

/// The reply that the bytes are, all of them. None, exactly where they are no reply.
pub fn read_reply(bytes: &[u8]) -> Option<Reply<'_>>
    // What is read is in its ranges, and spelled so.
    ensures found { IfSome result (λ r. IsReply (reply r) × (bytes.now ≡ reply_bytes (reply r))) }

    // What is spelled so is read.
    ensures only { (r : plain.Reply) → IsReply r → bytes.now ≡ reply_bytes r → IsSomeAnd result (λ x. reply x ≡ r) }
    ensures exact { Finds reply result (reply_of bytes.now) }
{
    reply_in(bytes)
}
