//! What a quorum says.
ghost use Rattle.std.specs.Prelude.{◌≡◌};
ghost use Rattle.std.specs.Option.{option_map};
ghost use Rattle.message_defs.specs.Statements.{AckAt, ReadyAt};
ghost use Rattle.group_defs.specs.Certified as defs;
ghost use Rattle.rp_base.specs.Views as base;
ghost use Rattle.member_events.specs.Below.{message};

use crate::parts::{batch_of, payload_of, value_of};
use claim_pool::{Ack, Commit, Message, Place, Pool};
use member_events::{Batch, Slot};
use rp_base::{Pid, Value};

/// The value of the rank's certified Ack; None exactly where none is certified.
pub fn certified_ack(pool: &Pool, rank: u8) -> Option<Value>
    ensures { option_map base.value result ≡ defs.value_at pool.now.pool (AckAt pool.now.pool.view.number rank) }
{
    let view = pool.view().number();
    match pool.certified::<Ack>(Slot::Rank { view, rank }) {
        Some(statement) => value_of(&statement),
        None => None,
    }
}

/// The value of the rank's certified Ready; None exactly where none is certified.
pub fn certified_ready(pool: &Pool, rank: u8) -> Option<Value>
    ensures { option_map base.value result ≡ defs.value_at pool.now.pool (ReadyAt pool.now.pool.view.number rank) }
{
    let view = pool.view().number();
    match pool.certified::<Commit>(Slot::Rank { view, rank }) {
        Some(statement) => value_of(&statement),
        None => None,
    }
}

/// The batch that is certified of the place; None exactly where none is, whatever is certified of the places before.
pub fn certified_batch(pool: &Pool, place: u16) -> Option<Batch>
    ensures { result ≡ defs.place_at pool.now.pool place }
{
    let view = pool.view().number();
    match pool.certified::<Place>(Slot::Place { view, place }) {
        Some(statement) => batch_of(&statement),
        None => None,
    }
}

/// The certified payload of the sender's message of this number; None exactly where none is certified.
pub fn certified_payload(pool: &Pool, sender: Pid, number: u16) -> Option<&[u8]>
    ensures { option_map (λ payload. payload.now) result ≡ defs.payload_at pool.now.pool (message sender number) }
{
    let view = pool.view().number();
    let slot = Slot::Message {
        view,
        sender,
        number,
    };
    match pool.certified::<Message>(slot) {
        Some(statement) => payload_of(&statement),
        None => None,
    }
}
