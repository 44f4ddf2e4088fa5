//! The Ready of a rank: it is due after a certified Ack (docs/PROTOCOL.md, «What is signed»).
ghost use Rattle.std.specs.Prelude.{◌≡◌, suc};
ghost use Rattle.std.specs.Option.{option_map};
ghost use Rattle.message_defs.specs.Limits.{last_rank};
ghost use Rattle.message_defs.specs.Statements.{Ready};
ghost use Rattle.group_defs.specs.Process.{Readies};
ghost use Rattle.pool_laws.specs.Least.{IsLeastBelow};
ghost use Rattle.rp_base.specs.Views.{value as value_of};
ghost use Rattle.ending_rules.specs.Due.{IsLeastDue};
ghost use Rattle.rank_rules.specs.Open.{is_ready_open};

use ending_rules::{Own, Pool, certified_ack};
use rp_base::Value;
use stmt_codec::Slot;

/// How many ranks there are at most.
const MOST_RANKS: u8 = 16;

// Whether the Ready of the rank is due to a member.
fn is_open(pool: &Pool, own: &Own, rank: u8) -> bool
    ensures { result ≡ is_ready_open pool.now.pool own.now rank }
{
    let view = pool.view().number();
    certified_ack(pool, rank).is_some()
        && own.rank <= rank
        && !own.signed.has_signed(11, &Slot::Rank { view, rank })
}

// The least rank whose Ready is due to a member; None exactly where none is.
fn open_rank(pool: &Pool, own: &Own) -> Option<u8>
    ensures { IsLeastBelow (suc last_rank) (is_ready_open pool.now.pool own.now) result }
{
    'ranks: for rank in 0..MOST_RANKS {
        if is_open(pool, own, rank) {
            return Some(rank);
        }
    }
    None
}

/// The rank and the value of the least Ready that is due: of the least rank, 0 to 15, at or above the own one, with a
/// certified Ack and no own Ready. None exactly where none is due.
pub fn ready_due(pool: &Pool, own: &Own) -> Option<(u8, Value)>
    ensures { IsLeastDue pool.now.pool own.now Readies (option_map (λ r. Ready pool.now.pool.view.number r.0 (value_of r.1)) result) }
{
    own.position?;
    // Where no Ack is heard, none is certified.
    if !pool.hears(10) {
        return None;
    }
    let rank = open_rank(pool, own)?;
    let value = certified_ack(pool, rank)?;
    Some((rank, value))
}
