//! Ranks whose members are to be removed: the deputy after them takes its turn (docs/PROTOCOL.md, «What is signed»).
ghost use Rattle.std.specs.Prelude.{◌≡◌, take_while, length};
ghost use Rattle.message_defs.specs.Updates.{Remove};
ghost use Rattle.group_defs.specs.Certified as defs;

use ending_rules::Pool;
use rp_base::{Pid, Update};

// Whether more than f members notify that the process is removed.
fn is_removed(pool: &Pool, p: Pid) -> bool
    ensures { result ≡ defs.is_notified pool.now.pool (Remove p) }
{
    pool.is_notified(Update::Remove(p))
}

// How many members in front are to be removed.
fn removed_in_front(pool: &Pool) -> usize
    ensures { result ≡ length (take_while (λ m. defs.is_notified pool.now.pool (Remove m)) pool.now.pool.view.members) }
{
    pool.view()
        .members()
        .iter()
        .take_while(|m| is_removed(pool, **m))
        .count()
}

/// The removed rank, 0 to 15: the greatest of the view such that each member of a lower one is to be removed.
pub(crate) fn removed_rank(pool: &Pool) -> u8
    ensures { result ≡ defs.removed_rank pool.now.pool }
{
    let members = pool.view().members();
    let last = members.len() - 1;
    last.min(removed_in_front(pool)) as u8
}
