ghost use Rattle.std.specs.Prelude.{◌≡◌, length, slice_index, is_some, unwrap_or, nat_lt, None, IsTrue, IsFalse, if◌then◌else◌};
ghost use Rattle.std.specs.List.{list_all};
ghost use Rattle.std.specs.Option.{option_map};
ghost use Rattle.group_defs.specs.Views as views;
ghost use Rattle.group_defs.specs.Process.{Process, delivered_from, places_in};
ghost use Rattle.group_defs.specs.Certified.{number_of_members, payload_at};
ghost use Rattle.group_defs.specs.Due.{are_certified};
ghost use Rattle.group_defs.specs.Settle as settle;
ghost use Rattle.stmt_codec.specs.Batches.{message};
ghost use Rattle.multicast_rules.specs.Delivering.{batch_in};
ghost use Rattle.own_place.specs.Owns.{HasDelivered};

use crate::echoes::message_held;
use pool_questions::{Own, Pool, certified_batch};
use rp_base::Pid;
use stmt_codec::Batch;

// The count at the member's rank; 0 where the sender is no member.
fn count_of(pool: &Pool, own: &Own, sender: Pid) -> u16
    requires { length own.now.counts.items ≡ number_of_members pool.now.pool }
    ensures { result ≡ unwrap_or (option_map (λ r. slice_index own.now.counts.items r) (views.rank_of pool.now.pool.view sender)) 0 }
{
    match pool.view().rank_of(sender) {
        Some(rank) => own.counts[rank as usize],
        None => 0,
    }
}

/// How many of the member's messages of this view the process has delivered; 0 where the sender is no member. `own` has an
/// entry for each member.
pub fn counts_of(pool: &Pool, own: &Own, sender: Pid) -> u16
    requires { length own.now.counts.items ≡ number_of_members pool.now.pool }
    ensures member { IsTrue (views.is_member pool.now.pool.view sender) → (p : Process) → HasDelivered own.now p → p.pool ≡ pool.now.pool
        → result ≡ delivered_from sender p.delivered }
    ensures stranger { IsFalse (views.is_member pool.now.pool.view sender) → result ≡ 0 }
{
    count_of(pool, own, sender)
}

// Whether each of these messages is certified.
fn each_held(pool: &Pool, messages: &[(Pid, u16)]) -> bool
    ensures { result ≡ list_all (λ m. is_some (payload_at pool.now.pool (message m.0 m.1))) messages.now }
{
    messages.iter().all(|m| message_held(pool, m.0, m.1))
}

// Whether each message of the batch is certified.
fn is_held(pool: &Pool, batch: &Batch) -> bool
    ensures { result ≡ are_certified pool.now.pool batch.now }
{
    each_held(pool, batch.messages())
}

/// The batch of the next place, where that is below the limit, is certified, and so is each message of the batch; else None.
/// A member delivers it whole.
pub fn deliverable(pool: &Pool, own: &Own, limit: u16) -> Option<Batch>
    ensures { (p : Process) → HasDelivered own.now p → p.pool ≡ pool.now.pool
        → result ≡ (if nat_lt (places_in p.delivered) limit then option_map batch_in (settle.deliverable p) else None) }
{
    if limit <= own.delivered {
        return None;
    }
    let batch = certified_batch(pool, own.delivered)?;
    if is_held(pool, &batch) {
        Some(batch)
    } else {
        None
    }
}
