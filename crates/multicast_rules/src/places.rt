ghost use Rattle.std.specs.Prelude.{◌≡◌, ◌≤◌, ◌&&◌, List, length, map, IfSome, Some};
ghost use Rattle.std.specs.Option.{option_map};
ghost use Rattle.message_defs.specs.Limits.{most_places};
ghost use Rattle.message_defs.specs.Statements as plain;
ghost use Rattle.group_defs.specs.Process.{Setting, Process, Places};
ghost use Rattle.group_defs.specs.Certified.{number_of_members};
ghost use Rattle.group_defs.specs.Due.{follows, are_certified, least_due};
ghost use Rattle.own_place.specs.Owns.{IsOwnOf};
ghost use Rattle.pool_laws.specs.Least.{IsLeastBelow};
ghost use Rattle.rule_laws.specs.Heard.{IsPool};
ghost use Rattle.rule_laws.specs.Placing as rules;
ghost use Rattle.rule_laws.specs.Placing.{counts_in};
ghost use Rattle.stmt_codec.specs.Batches.{message_of};
ghost use Rattle.multicast_rules.specs.Waiting.{ordered_at, is_order_open};
ghost use Rattle.multicast_rules.specs.Placing.{IsFollower};

use crate::counting::{count_one, names_before};
use crate::echoes::message_held;
use crate::waiting::first_waiting_order;
use own_place::SignedSlots;
use pool_questions::{Own, Pool, ordered_batch};
use rp_base::Pid;
use stmt_codec::Batch;

// The rank of the message's sender, where the message is certified and is the sender's next by these counts.
fn follower(pool: &Pool, counts: &[u16], sender: Pid, number: u16) -> Option<usize>
    requires { length counts.now ≡ number_of_members pool.now.pool }
    ensures { IsFollower pool.now.pool counts.now (message_of (sender, number)) result }
{
    let rank = pool.view().rank_of(sender)? as usize;
    if counts[rank] == number && message_held(pool, sender, number) {
        Some(rank)
    } else {
        None
    }
}

// Whether each of these messages is its sender's next after those that are counted and those before it, and certified.
fn all_follow(pool: &Pool, counts: &mut [u16], messages: &[(Pid, u16)]) -> bool
    requires { length counts.old ≡ number_of_members pool.now.pool }
    ensures { IsPool pool.now.pool → (before : List plain.Message) → counts.old ≡ counts_in pool.now.pool.view before
        → result ≡ (follows before (map message_of messages.now) && are_certified pool.now.pool (map message_of messages.now)) }
{
    'messages: for (sender, number) in messages {
        let Some(rank) = follower(pool, counts, *sender, *number) else {
            return false;
        };
        count_one(counts, rank);
    }
    true
}

// Whether the batch may be at the place.
fn fits(pool: &Pool, place: u16, batch: &Batch) -> bool
    ensures { IsPool pool.now.pool → result ≡ rules.fits pool.now.pool place batch.now }
{
    if pool.placed_len() < place {
        return false;
    }
    let mut counts = names_before(pool, place);
    all_follow(pool, &mut counts, batch.messages())
}

// The least place whose Order fits there, and whose own Place is not signed, with the batch of the Order.
fn first_fitting(pool: &Pool, signed: &SignedSlots) -> Option<(u16, Batch)>
    ensures least { IsPool pool.now.pool
        → IsLeastBelow most_places (is_order_open pool.now.pool signed.now) (option_map (λ e. e.0) result) }
    ensures batch { IfSome result (λ e. ordered_at pool.now.pool e.0 ≡ Some e.1) }
{
    let mut from = 0;
    'orders: while let Some(place) = first_waiting_order(pool, signed, from) {
        let batch = ordered_batch(pool, place)?;
        if fits(pool, place, &batch) {
            return Some((place, batch));
        }
        from = place + 1;
    }
    None
}

/// The place whose Place is due, with its batch; None exactly where none is.
pub fn place_due(pool: &Pool, own: &Own) -> Option<(u16, Batch)>
    // For each process whose own place and pool these are: its least due Place.
    ensures { (s : Setting) (p : Process) → IsPool pool.now.pool → IsOwnOf s p pool.now.pool own.now
        → least_due s p Places ≡ option_map (λ e. plain.Place pool.now.pool.view.number e.0 e.1) result }
{
    own.position?;
    if own.ended {
        return None;
    }
    first_fitting(pool, &own.signed)
}
