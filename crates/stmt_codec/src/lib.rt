//! The claims of frames. Statements, of which claims are made, are those of `statements`, handed on, with the fields that
//! frames are read by.
#![tactic(auto)]

mod claims;
mod cursor;
mod own;
mod payload;

pub use claims::claims_of;
pub use cursor::Claims;
pub use frame_codec::{SIGNATURE_BYTES, bytes_at, u8_at, u16_at, u32_at};
pub use own::OwnClaim;
pub use payload::Payload;
pub use statements::{
    BODY_BYTES, Batch, Claim, FrameFault, LAST_NUMBER, MOST_PLACES, PAYLOAD_BYTES, Pid, PidSet,
    STATEMENT_BYTES, Slot, Statement, UpdateFault, body_determines_statement, body_into, claim_len,
    conflicts, is_same_slot, read_statement, slot_of, spell_into, spelled_len,
    spelling_determines_statement,
};
