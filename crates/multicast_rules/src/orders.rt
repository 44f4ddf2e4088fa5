ghost use Rattle.std.specs.Prelude.{◌≡◌, ◌≤◌, List, [], length, MatchOption, IfSome};
ghost use Rattle.std.specs.Option.{option_map};
ghost use Rattle.message_defs.specs.Statements as plain;
ghost use Rattle.group_defs.specs.Process.{Setting, Process, Orders};
ghost use Rattle.group_defs.specs.Certified.{number_of_members};
ghost use Rattle.group_defs.specs.Due.{next_messages, least_due};
ghost use Rattle.own_place.specs.Owns.{IsOwnOf};
ghost use Rattle.pool_laws.specs.Least.{IsLeastBelow};
ghost use Rattle.rule_laws.specs.Heard.{IsPool};
ghost use Rattle.rule_laws.specs.Placing.{may_order, counts_in, is_next};
ghost use Rattle.multicast_rules.specs.Ordering.{is_in_turn, TakesNext};

use crate::counting::{copied, count_one};
use crate::echoes::message_held;
use pool_questions::{Own, Pool, WINDOW};
use rp_base::Pid;
use stmt_codec::{Batch, LAST_NUMBER, Slot};

// Whether the process is the manager, has not signed its End, and its next place is in the window and within the numbers.
fn is_in_turn(own: &Own) -> bool
    ensures { result ≡ is_in_turn own.now }
{
    own.position == Some(0)
        && !own.ended
        && (own.ordered as u32) < own.delivered as u32 + WINDOW
        && own.ordered <= LAST_NUMBER
}

// Whether it may give that place, which is not signed.
fn may_order(pool: &Pool, own: &Own) -> bool
    ensures { (s : Setting) (p : Process) → IsOwnOf s p pool.now.pool own.now → result ≡ may_order p }
{
    let next = Slot::Place {
        view: pool.view().number(),
        place: own.ordered,
    };
    is_in_turn(own) && !own.signed.has_signed(3, &next)
}

// The least rank whose next message, by these counts, is certified.
fn next_rank(pool: &Pool, members: &[Pid], counts: &[u16]) -> Option<usize>
    requires members { members.now ≡ pool.now.pool.view.members }
    requires counts { length counts.now ≡ length members.now }
    ensures { IsLeastBelow (number_of_members pool.now.pool) (is_next pool.now.pool counts.now) result }
{
    'ranks: for (rank, sender) in members.iter().enumerate() {
        if message_held(pool, *sender, counts[rank]) {
            return Some(rank);
        }
    }
    None
}

// The next message by these counts, which then count it too.
fn take_next(pool: &Pool, counts: &mut [u16]) -> Option<(Pid, u16)>
    requires { length counts.old ≡ number_of_members pool.now.pool }
    ensures { IsPool pool.now.pool → TakesNext pool.now.pool counts.old counts.new result }
{
    let members = pool.view().members();
    let rank = next_rank(pool, members, counts)?;
    let message = (members[rank], counts[rank]);
    count_one(counts, rank);
    Some(message)
}

// The next messages after those that are counted, at most `limit`; None where there is none.
fn next_batch(pool: &Pool, counts: &mut [u16], limit: u8) -> Option<Batch>
    requires counts { length counts.old ≡ number_of_members pool.now.pool }
    requires some { 1 ≤ limit }
    requires few { limit ≤ 16 }
    ensures next { IsPool pool.now.pool → (before : List plain.Message) → counts.old ≡ counts_in pool.now.pool.view before
        → MatchOption result (next_messages limit pool.now.pool before ≡ []) (λ b. next_messages limit pool.now.pool before ≡ b) }
    ensures some { IfSome result (λ b. 1 ≤ length b) }
{
    let (sender, number) = take_next(pool, counts)?;
    let mut batch = Batch::of(sender, number);
    'messages: for _more in 1..limit {
        let Some(message) = take_next(pool, counts) else {
            return Some(batch);
        };
        batch.push(message.0, message.1);
    }
    Some(batch)
}

/// The place whose Order is due, with its batch of 1 to `batch_limit` messages; None exactly where none is. `own` has an
/// entry for each member, and the limit is that of the process.
pub fn order_due(pool: &Pool, own: &Own, batch_limit: u8) -> Option<(u16, Batch)>
    requires own { length own.now.orders.items ≡ number_of_members pool.now.pool }
    requires some { 1 ≤ batch_limit }
    requires few { batch_limit ≤ 16 }

    // For each process whose own place and pool these are: its least due Order.
    ensures { (s : Setting) (p : Process) → IsPool pool.now.pool → IsOwnOf s p pool.now.pool own.now → p.batch_limit ≡ batch_limit
        → least_due s p Orders ≡ option_map (λ e. plain.Order pool.now.pool.view.number e.0 e.1) result }
{
    if !may_order(pool, own) {
        return None;
    }
    let mut counts = copied(&own.orders);
    let batch = next_batch(pool, &mut counts, batch_limit)?;
    Some((own.ordered, batch))
}
