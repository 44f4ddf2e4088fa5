//! What is wrong with an input that ends.
ghost use Rattle.std.specs.Prelude.{◌≡◌, ◌+◌, ◌-◌, ◌≤◌, length, take};
ghost use Rattle.replay_defs.specs.Schedules.{most_bytes};
ghost use Rattle.replay_defs.specs.Reading as plain;
ghost use Rattle.schedule_events.specs.Seen.{roles};
ghost use Rattle.schedule_pieces.specs.Ends.{AreLast, EndsBy, EndsAt};

use crate::front::within_limit;
use replay_defs::{Fault, Found};
use schedule_events::{Roles, pass_event};
use schedule_fields::{Reader, SCHEDULE_BYTES, placed, placed_past_limit, too_long};

// What is wrong with the events to the end of the bytes, where anything is.
fn last_found(of: &Roles, steps: u32, readable: &[u8]) -> Option<Found>
    ensures { AreLast (plain.events_at (roles of.now) (length readable.now) steps readable.now) result }
{
    let mut reader = Reader { rest: readable };
    let mut left = steps;
    'events: while let [_, ..] = reader.rest {
        match pass_event(of, left, &mut reader) {
            Ok(count) => left = left.saturating_sub(count),
            Err(found) => return Some(found),
        }
    }
    None
}

// The fault of an input of `size` bytes.
#[tactic(auto, unfolding(replay_defs::specs::Schedules::most_bytes))]
fn fault_of(found: Option<Found>, size: usize) -> Option<Fault>
    ensures { EndsBy found size result }
{
    match found {
        None if size > SCHEDULE_BYTES => Some(too_long()),
        None => None,
        Some(found) if size > SCHEDULE_BYTES => Some(placed_past_limit(found)),
        Some(found) => Some(placed(size, found)),
    }
}

/// The fault of an input that ends here, or None: `waiting` is its last part, `taken` bytes came before it, `steps` steps are left.
#[tactic(auto, unfolding(replay_defs::specs::Schedules::most_bytes))]
pub fn fault_at_end(of: &Roles, steps: u32, taken: usize, waiting: &[u8]) -> Option<Fault>
    requires { taken ≤ most_bytes }
    ensures { EndsAt (roles of.now) steps taken waiting.now (take (most_bytes - taken) waiting.now) result }
{
    let readable = within_limit(waiting, taken);
    fault_of(last_found(of, steps, readable), taken + waiting.len())
}
