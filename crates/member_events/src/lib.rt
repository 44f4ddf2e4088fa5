//! The events of a member, what becomes of each, and what a journal keeps of one. Those who name this crate read claims
//! and statements too, so what they use of `stmt_codec` is handed on.
#![tactic(auto)]

mod entry;
mod events;

pub use entry::{Entry, EntrySignatures};
pub use events::{Delivered, Event, EventFault, EventVerdict, Note, Outcome, Sending};
pub use stmt_codec::{
    BODY_BYTES, Batch, Claim, Claims, FrameFault, LAST_NUMBER, MOST_PLACES, OwnClaim,
    PAYLOAD_BYTES, Payload, SIGNATURE_BYTES, STATEMENT_BYTES, Slot, Statement, body_into, bytes_at,
    claim_len, claims_of, conflicts, is_same_slot, read_statement, slot_of, spell_into,
    spelled_len, u8_at, u16_at, u32_at,
};
