//! The Last at the removed rank (docs/PROTOCOL.md, «What is signed»).
ghost use Rattle.std.specs.Prelude.{◌≡◌};
ghost use Rattle.std.specs.Option.{option_map};
ghost use Rattle.message_defs.specs.Statements.{Last};
ghost use Rattle.group_defs.specs.Process.{Lasts};
ghost use Rattle.group_defs.specs.Certified as defs;
ghost use Rattle.stmt_codec.specs.Views.{report};
ghost use Rattle.ending_rules.specs.Due.{IsLeastDue};
ghost use Rattle.rank_rules.specs.Open.{is_last_open};

use crate::ranks::removed_rank;
use ending_rules::{Own, Pool};
use rp_base::Value;
use stmt_codec::Slot;

// Whether a Last is due at this rank, the removed one.
fn is_open(pool: &Pool, own: &Own, rank: u8) -> bool
    requires { rank ≡ defs.removed_rank pool.now.pool }
    ensures { result ≡ is_last_open pool.now.pool own.now }
{
    let view = pool.view().number();
    own.position.is_some()
        && own.rank < rank
        && !own.signed.has_signed(8, &Slot::Rank { view, rank })
}

/// The Last that is due: its rank, 1 to 15, and the own Ready of greatest rank, or that there is none. It is due at the
/// greatest rank such that more than f members notify the removal of each member of a lower one, where that is above the own
/// rank. None exactly where no Last is due.
pub fn last_due(pool: &Pool, own: &Own) -> Option<(u8, Option<(u8, Value)>)>
    ensures { IsLeastDue pool.now.pool own.now Lasts (option_map (λ l. Last pool.now.pool.view.number l.0 (report l.1)) result) }
{
    let rank = removed_rank(pool);
    if is_open(pool, own, rank) {
        Some((rank, own.ready))
    } else {
        None
    }
}
