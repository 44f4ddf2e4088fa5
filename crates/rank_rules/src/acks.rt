//! The Ack of a rank: it is due for a justified Suggest (docs/PROTOCOL.md, «Values», «What is signed»).
ghost use Rattle.std.specs.Prelude.{◌≡◌, ◌≤◌, Some, IfSome};
ghost use Rattle.std.specs.Option.{option_map};
ghost use Rattle.message_defs.specs.Statements.{Ack};
ghost use Rattle.group_defs.specs.Certified.{number_of_members};
ghost use Rattle.group_defs.specs.Process.{Setting, Acks};
ghost use Rattle.group_defs.specs.Values as defs;
ghost use Rattle.pool_laws.specs.Least.{IsLeastFrom};
ghost use Rattle.rp_base.specs.Views.{value as value_of};
ghost use Rattle.rule_laws.specs.Heard.{IsPool};
ghost use Rattle.rule_laws.specs.Ranks.{suggested};
ghost use Rattle.ending_rules.specs.Due.{HasKeys, IsLeastDue};
ghost use Rattle.rank_rules.specs.Open.{is_ack_open};

use crate::ways::{first_deciding, is_first_way};
use ending_rules::{Own, Pool, cut_justified, suggestion};
use rp_base::Value;
use stmt_codec::Slot;

/// Whether the value is justified at the rank: it is free, which is handed in, and no lower rank may have decided; or some
/// lower rank may have decided it.
pub fn justified(pool: &Pool, rank: u8, value: Value, free: bool) -> bool
    ensures { IsPool pool.now.pool → (s : Setting) → free ≡ defs.is_free s pool.now.pool (value_of value)
        → result ≡ defs.is_justified s pool.now.pool rank (value_of value) }
{
    (free && is_first_way(pool, rank)) || first_deciding(pool, rank, &value).is_some()
}

// Whether the value is justified at the rank, which asks whether it is free.
fn is_justified(pool: &Pool, own: &Own, rank: u8, value: &Value) -> bool
    ensures { IsPool pool.now.pool → (s : Setting) → HasKeys s own.now
        → result ≡ defs.is_justified s pool.now.pool rank (value_of value.now) }
{
    let free = cut_justified(pool, own, *value);
    justified(pool, rank, *value, free)
}

// Whether the Ack of the rank is due to a member, if the value that is suggested there is justified.
fn is_open(pool: &Pool, own: &Own, rank: u8) -> bool
    ensures { result ≡ is_ack_open pool.now.pool own.now rank }
{
    let view = pool.view().number();
    own.position.is_some()
        && suggestion(pool, rank).is_some()
        && own.rank <= rank
        && !own.signed.has_signed(10, &Slot::Rank { view, rank })
}

// The least such rank from this one on; None exactly where there is none.
fn open_from(pool: &Pool, own: &Own, from: u8) -> Option<u8>
    ensures least { IsLeastFrom from (number_of_members pool.now.pool) (is_ack_open pool.now.pool own.now) result }
    ensures few { IfSome result (λ r. r ≤ 15) }
{
    let members = pool.view().members().len() as u8;
    'ranks: for rank in from..members {
        if is_open(pool, own, rank) {
            return Some(rank);
        }
    }
    None
}

/// The least rank from this one on, 0 to 15, whose member's Suggest is heard, which is not below the own rank, and whose Ack is
/// not signed; and the value that is suggested there. Its Ack is due where that value is justified. None exactly where there
/// is no such rank, or the process is no member.
pub fn ack_candidate(pool: &Pool, own: &Own, from: u8) -> Option<(u8, Value)>
    ensures least { IsLeastFrom from (number_of_members pool.now.pool) (is_ack_open pool.now.pool own.now) (option_map (λ a. a.0) result) }
    ensures value { IfSome result (λ a. suggested pool.now.pool a.0 ≡ Some (value_of a.1)) }
    ensures few { IfSome result (λ a. a.0 ≤ 15) }
{
    let rank = open_from(pool, own, from)?;
    let value = suggestion(pool, rank)?;
    Some((rank, value))
}

/// The rank and the value of the least Ack that is due; None exactly where none is due.
pub fn next_ack(pool: &Pool, own: &Own) -> Option<(u8, Value)>
    ensures { IsLeastDue pool.now.pool own.now Acks (option_map (λ a. Ack pool.now.pool.view.number a.0 (value_of a.1)) result) }
{
    // Where no Suggest is heard, no Ack is due.
    if !pool.hears(9) {
        return None;
    }
    let mut from = 0;
    'candidates: while let Some((rank, value)) = ack_candidate(pool, own, from) {
        if is_justified(pool, own, rank, &value) {
            return Some((rank, value));
        }
        from = rank + 1;
    }
    None
}
