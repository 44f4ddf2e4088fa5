//! What members say.
ghost use Rattle.std.specs.Prelude.{◌≡◌, option_and_then, slice_get};
ghost use Rattle.std.specs.Option.{option_map};
ghost use Rattle.message_defs.specs.Statements.{OrderAt, EndAt, LastAt, SuggestAt};
ghost use Rattle.message_defs.specs.Statements as plain;
ghost use Rattle.group_defs.specs.Certified as certified;
ghost use Rattle.group_defs.specs.Values as values;
ghost use Rattle.rp_base.specs.Views as base;
ghost use Rattle.member_events.specs.Below.{report};

use crate::parts::{length_said, ordered, ready_said, value_of};
use claim_pool::Pool;
use member_events::{Batch, Slot};
use rp_base::{Pid, Value};

/// The length that the member's heard End says; None exactly where no End of its is heard.
pub fn end_of(pool: &Pool, member: Pid) -> Option<u16>
    ensures { result ≡ option_and_then values.length_said (certified.heard_on pool.now.pool member (EndAt pool.now.pool.view.number)) }
{
    let view = pool.view().number();
    match pool.first(member, 7, Slot::View { view }) {
        Some(statement) => length_said(&statement),
        None => None,
    }
}

/// What the member's heard Last at the rank says: a Ready's rank and value, or that it signed none. None exactly where no
/// such Last of its is heard.
pub fn last_of(pool: &Pool, member: Pid, rank: u8) -> Option<Option<(u8, Value)>>
    ensures { option_map report result
        ≡ option_and_then values.ready_said (certified.heard_on pool.now.pool member (LastAt pool.now.pool.view.number rank)) }
{
    let view = pool.view().number();
    match pool.first(member, 8, Slot::Rank { view, rank }) {
        Some(statement) => ready_said(&statement),
        None => None,
    }
}

// The value that the member's heard Suggest at the rank says.
fn suggested_by(pool: &Pool, member: Pid, rank: u8) -> Option<Value>
    ensures { option_map base.value result
        ≡ option_and_then plain.value_of (certified.heard_on pool.now.pool member (SuggestAt pool.now.pool.view.number rank)) }
{
    let view = pool.view().number();
    match pool.first(member, 9, Slot::Rank { view, rank }) {
        Some(statement) => value_of(&statement),
        None => None,
    }
}

/// The value that the member of the rank suggests there; None exactly where there is no such rank, or its Suggest is not
/// heard.
pub fn suggestion(pool: &Pool, rank: u8) -> Option<Value>
    ensures { option_map base.value result
        ≡ option_and_then (λ m. option_and_then plain.value_of
        (certified.heard_on pool.now.pool m (SuggestAt pool.now.pool.view.number rank))) (slice_get pool.now.pool.view.members rank) }
{
    match pool.view().members().get(rank as usize) {
        Some(member) => suggested_by(pool, *member, rank),
        None => None,
    }
}

// The batch that the member's heard Order gives the place.
fn ordered_by(pool: &Pool, member: Pid, place: u16) -> Option<Batch>
    ensures { result ≡ option_and_then certified.ordered
        (certified.heard_on pool.now.pool member (OrderAt pool.now.pool.view.number place)) }
{
    let view = pool.view().number();
    match pool.first(member, 3, Slot::Place { view, place }) {
        Some(statement) => ordered(&statement),
        None => None,
    }
}

/// The batch that the manager's heard Order gives the place; None exactly where no such Order is heard.
pub fn ordered_batch(pool: &Pool, place: u16) -> Option<Batch>
    ensures { result ≡ option_and_then
        (λ m. option_and_then certified.ordered (certified.heard_on pool.now.pool m (OrderAt pool.now.pool.view.number place)))
        (slice_get pool.now.pool.view.members 0) }
{
    match pool.view().members().get(0) {
        Some(manager) => ordered_by(pool, *manager, place),
        None => None,
    }
}
