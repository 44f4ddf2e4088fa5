//! What the updates that more than f members notify ask for.
ghost use Rattle.std.specs.Prelude.{◌≡◌, ◌≤◌, ◌==◌, nat_lt, length, take_while};
ghost use Rattle.std.specs.List.{list_any};
ghost use Rattle.group_defs.specs.Certified as defs;

use claim_pool::Pool;
use rp_base::{Pid, PidSet};

/// Whether more than f members notify some update.
pub fn has_notified(pool: &Pool) -> bool
    ensures { result ≡ nat_lt 0 (length (defs.notified_updates pool.now.pool)) }
{
    match pool.notified().first() {
        Some(_) => true,
        None => false,
    }
}

// How many members from the first on are among these.
fn front_among(members: &[Pid], set: PidSet) -> usize
    ensures front { result ≡ length (take_while (λ m. list_any (λ p. p == m) set) members.now) }
    ensures within { result ≤ length members.now }
{
    members.iter().take_while(|m| set.contains(**m)).count()
}

/// The greatest rank such that each member of a rank below it is to be removed, 0 to 15.
pub fn removed_rank(pool: &Pool) -> u8
    ensures { result ≡ defs.removed_rank pool.now.pool }
{
    let members = pool.view().members();
    let front = front_among(members, pool.notified().removed());
    front.min(members.len() - 1) as u8
}
