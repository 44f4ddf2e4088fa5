//! Whether what was delivered in a view is what its pool certifies.
ghost use Rattle.std.specs.Prelude.{◌≡◌, ◌↔◌, ◌<◌, ℕ, Some, map, All, IsTrue};
ghost use Rattle.std.specs.List.{list_all};
ghost use Rattle.std.specs.Option.{option_map};
ghost use Rattle.group_defs.specs.Process.{places_in};
ghost use Rattle.group_defs.specs.Certified.{payload_at, place_at};
ghost use Rattle.group_defs.specs.Accounts.{IsByPlace, batch_at};
ghost use Rattle.member_events.specs.Below.{message_of};
ghost use Rattle.snapshot_rp.specs.Views.{delivered as plain};
ghost use Rattle.heard_images.specs.Walks as tests;

use member_events::Delivered;
use pool_questions::{Pool, certified_batch, certified_payload};
use rp_base::Pid;

// Whether the message was delivered at this place.
fn is_delivered(d: &Delivered, place: u16, message: &(Pid, u16)) -> bool
    ensures { result ≡ tests.is_delivered place (message_of message.now) (plain d.now) }
{
    d.place == place && d.sender == message.0 && d.number == message.1
}

// What is left of the deliveries after the first; None exactly where that is not this message, at this place.
fn after_message<'a>(
    delivered: &'a [Delivered],
    place: u16,
    message: &(Pid, u16),
) -> Option<&'a [Delivered]>
    ensures { option_map (λ l. map plain l.now) result ≡ tests.after_message place (message_of message.now) (map plain delivered.now) }
{
    match delivered.split_first() {
        Some((first, rest)) if is_delivered(first, place, message) => Some(rest),
        _ => None,
    }
}

// What is left of them after these messages; None exactly where the first of them are not these, in order, at this place.
fn after_messages<'a>(
    delivered: &'a [Delivered],
    place: u16,
    messages: &[(Pid, u16)],
) -> Option<&'a [Delivered]>
    ensures { option_map (λ l. map plain l.now) result ≡ tests.after_batch place (map message_of messages.now) (map plain delivered.now) }
{
    let mut left = delivered;
    for message in messages {
        match after_message(left, place, message) {
            Some(rest) => left = rest,
            None => return None,
        }
    }
    Some(left)
}

// What is left of them after the batch that the pool certifies of the place.
fn after_place<'a>(pool: &Pool, delivered: &'a [Delivered], place: u16) -> Option<&'a [Delivered]>
    ensures { option_map (λ l. map plain l.now) result ≡ tests.after_place pool.now.pool place (map plain delivered.now) }
{
    match certified_batch(pool, place) {
        Some(batch) => after_messages(delivered, place, batch.messages()),
        None => None,
    }
}

// What is left of them after the batches that the pool certifies at the first `places` places.
fn after_places<'a>(pool: &Pool, delivered: &'a [Delivered], places: u16) -> Option<&'a [Delivered]>
    ensures { option_map (λ l. map plain l.now) result ≡ tests.after_places pool.now.pool places 0 (map plain delivered.now) }
{
    let mut left = delivered;
    'places: for place in 0..places {
        match after_place(pool, left, place) {
            Some(rest) => left = rest,
            None => return None,
        }
    }
    Some(left)
}

/// Whether at each place where messages were delivered the pool certifies their batch. The deliveries are in the order of places, and
/// `places` is how many there are.
pub fn are_placed(pool: &Pool, delivered: &[Delivered], places: u16) -> bool
    ensures { IsByPlace (map plain delivered.now) → places ≡ places_in (map plain delivered.now)
        → IsTrue result ↔ ((k : ℕ) → k < places_in (map plain delivered.now)
        → place_at pool.now.pool k ≡ Some (batch_at k (map plain delivered.now))) }
{
    match after_places(pool, delivered, places) {
        Some(left) => left.is_empty(),
        None => false,
    }
}

fn is_paid(pool: &Pool, d: &Delivered) -> bool
    ensures { result ≡ tests.is_paid pool.now.pool (plain d.now) }
{
    match certified_payload(pool, d.sender, d.number) {
        Some(payload) => payload == d.payload.bytes(),
        None => false,
    }
}

fn each_is_paid(pool: &Pool, delivered: &[Delivered]) -> bool
    ensures { result ≡ list_all (λ d. tests.is_paid pool.now.pool (plain d)) delivered.now }
{
    delivered.iter().all(|d| is_paid(pool, d))
}

/// Whether the payload of each delivery is the one that the pool certifies for its message.
pub fn are_paid(pool: &Pool, delivered: &[Delivered]) -> bool
    ensures { IsTrue result ↔ All (λ d. payload_at pool.now.pool d.message ≡ Some d.payload) (map plain delivered.now) }
{
    each_is_paid(pool, delivered)
}
