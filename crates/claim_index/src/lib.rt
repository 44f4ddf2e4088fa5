//! The heard claims of a view, each found by its signer and slot. The bytes of all claims lie one after the other in one
//! vector, and a map in order of hearing says where those of each are; contents are compared by their bytes.
#![tactic(auto)]

mod hasher;
mod index;
mod key;

pub use hasher::KeyHasher;
pub use index::{ClaimIndex, Kept, lent, store};
pub use key::{Key, SlotKey, slot_key_at, slot_key_of};
pub use rp_base::{NoMemory, Pid, PidSet, Value};
pub use stmt_codec::{Batch, Claim, MOST_PLACES, STATEMENT_BYTES, Slot, Statement, spell_into};
pub use view_table::{View, faulty, quorum};
