//! Statements and their slots: of values, read from bytes, spelled in bytes, and as the body that is signed.
#![tactic(auto)]

mod batch;
mod fields;
mod laws;
mod limits;
mod reading;
mod spelling;
mod statement;

pub use batch::Batch;
pub use laws::{body_determines_statement, spelling_determines_statement};
pub use limits::{BODY_BYTES, LAST_NUMBER, MOST_PLACES, PAYLOAD_BYTES, STATEMENT_BYTES};
pub use message_defs::FrameFault;
pub use reading::{Carrier, read_carried, read_statement};
pub use rp_base::{Pid, PidSet, UpdateFault};
pub use spelling::{body_into, claim_len, spell_into, spelled_len};
pub use statement::{Claim, Slot, Statement, conflicts, is_same_slot, slot_of};
