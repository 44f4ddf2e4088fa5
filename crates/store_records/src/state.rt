//! A state record is a member's store as it was when a view began:
//!
//! | Field | Bytes |
//! |---|---|
//! | signer | 1, at most 63 |
//! | view | 2, at most 1,023 |
//! | state | 4 of length, and that many, the spelling of a store |
//! | signature | 2 of length, at most 16,384, and that many |
//!
//! What is signed is the letters `RPT1`, the group and these fields without the signature.
ghost use Rattle.std.specs.Prelude.{◌≡◌, IfSome, IsSomeAnd, Ok, Err};
ghost use Rattle.byte_defs.specs.Reads.{Gives};
ghost use Rattle.store_defs.specs.Records as plain;
ghost use Rattle.store_defs.specs.Records.{IsStateRecord, state_bytes, state_record_of};
ghost use Rattle.store_records.specs.Views.{state_record};
ghost use Rattle.store_records.specs.Finds.{Finds};

use crate::fields::{LAST_PROCESS, SIGNATURE_BYTES, short_at, small_at, text_within};
use crate::pairs::is_store;
use byte_fields::{bytes_at, u32_at};
use rp_base::Pid;

/// A state record, whose bytes are borrowed.
#[derive(Clone, Copy)]
pub struct StateRecord<'a> {
    pub signer: Pid,
    pub view: u16,

    /// The spelling of a store.
    pub state: &'a [u8],
    pub signature: &'a [u8],
}

// A store's spelling after its length, and the bytes after it.
#[tactic(auto, unfolding(store_defs::specs::Records::state_at))]
fn state_at(bytes: &[u8]) -> Result<(&[u8], &[u8]), ()>
    ensures { Gives (λ x. (x.0.now, x.1.now)) result (plain.state_at bytes.now) }
{
    let (len, rest) = u32_at(bytes, ())?;
    let (state, rest) = bytes_at(rest, len as usize, ())?;
    if !is_store(state) {
        return Err(());
    }
    Ok((state, rest))
}

#[tactic(auto, unfolding(store_defs::specs::Records::state_record_of))]
fn state_in(bytes: &[u8]) -> Option<StateRecord<'_>>
    ensures { Finds state_record result (state_record_of bytes.now) }
{
    let (number, rest) = small_at(bytes, LAST_PROCESS).ok()?;
    let signer = Pid::new(number)?;
    let (view, rest) = short_at(rest).ok()?;
    let (state, rest) = state_at(rest).ok()?;
    let (signature, rest) = text_within(rest, SIGNATURE_BYTES).ok()?;
    if !rest.is_empty() {
        return None;
    }
    Some(StateRecord {
        signer,
        view,
        state,
        signature,
    })
}

/// The state record that the bytes are, all of them. None, exactly where they are none. The state is read once, and not copied.
pub fn read_state(bytes: &[u8]) -> Option<StateRecord<'_>>
    // What is read is in its ranges, its state is a store's, and it is spelled so.
    ensures found { IfSome result (λ r. IsStateRecord (state_record r) × (bytes.now ≡ state_bytes (state_record r))) }

    // What is spelled so is read.
    ensures only { (r : plain.StateRecord) → IsStateRecord r → bytes.now ≡ state_bytes r → IsSomeAnd result (λ x. state_record x ≡ r) }
    ensures exact { Finds state_record result (state_record_of bytes.now) }
{
    state_in(bytes)
}
