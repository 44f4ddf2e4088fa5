//! The Suggest of a rank's deputy: what it chooses, and when it is due (docs/PROTOCOL.md, «Values», «What is signed»).
ghost use Rattle.std.specs.Prelude.{◌≡◌, ℕ, Some, None};
ghost use Rattle.std.specs.Bool.{OnFalse};
ghost use Rattle.std.specs.Option.{option_map};
ghost use Rattle.message_defs.specs.Statements.{Suggest};
ghost use Rattle.group_defs.specs.Process.{Setting, Process, Suggests};
ghost use Rattle.group_defs.specs.Due.{least_due};
ghost use Rattle.group_defs.specs.Values as defs;
ghost use Rattle.own_place.specs.Owns.{IsOwnOf};
ghost use Rattle.rp_base.specs.Views.{value as value_of};
ghost use Rattle.rule_laws.specs.Heard.{IsPool};
ghost use Rattle.ending_rules.specs.Due.{IsLeastDue};
ghost use Rattle.rank_rules.specs.Open.{is_suggest_open};

use crate::ways::{is_first_way, last_deciding};
use ending_rules::{Own, Pool, certified_ack, free_value, has_notified};
use rp_base::Value;
use stmt_codec::Slot;

/// What the deputy of the rank chooses: the value of the greatest lower rank that may have decided one; where none may, the
/// free value, which is handed in, if no lower rank may have decided. None exactly where there is nothing to choose.
pub fn choose(pool: &Pool, rank: u8, free: Option<Value>) -> Option<Value>
    ensures { IsPool pool.now.pool → (s : Setting) → option_map value_of free ≡ defs.free_value s pool.now.pool
        → option_map value_of result ≡ defs.choose s pool.now.pool rank }
{
    match last_deciding(pool, rank) {
        Some(lower) => certified_ack(pool, lower),
        None => {
            let value = free?;
            if is_first_way(pool, rank) {
                Some(value)
            } else {
                None
            }
        }
    }
}

// Whether there may be a value to choose: an Ack is heard, or more than f members notify some update.
fn may_choose(pool: &Pool) -> bool
    ensures { OnFalse result (IsPool pool.now.pool → (s : Setting) (r : ℕ) → defs.choose s pool.now.pool r ≡ None) }
{
    pool.hears(10) || has_notified(pool)
}

// Whether the rank, the member's own, is not below its rank in the view's end, and its Suggest there is not signed.
fn is_open(pool: &Pool, own: &Own, rank: u8) -> bool
    ensures { result ≡ is_suggest_open pool.now.pool own.now rank }
{
    let view = pool.view().number();
    own.rank <= rank && !own.signed.has_signed(9, &Slot::Rank { view, rank })
}

/// The rank and the value of the Suggest that is due: at the own position, of what is chosen there, which is handed in. None
/// exactly where none is due.
pub fn suggest_due(pool: &Pool, own: &Own, chosen: Option<Value>) -> Option<(u8, Value)>
    ensures { (s : Setting) (p : Process) → IsOwnOf s p pool.now.pool own.now
        → ((r : ℕ) → own.now.position ≡ Some r → option_map value_of chosen ≡ defs.choose s pool.now.pool r)
        → least_due s p Suggests ≡ option_map (λ v. Suggest pool.now.pool.view.number v.0 (value_of v.1)) result }
{
    let rank = own.position?;
    if !is_open(pool, own, rank) {
        return None;
    }
    let value = chosen?;
    Some((rank, value))
}

/// The rank and the value of the Suggest that is due; None exactly where none is due.
pub fn next_suggest(pool: &Pool, own: &Own) -> Option<(u8, Value)>
    ensures { IsLeastDue pool.now.pool own.now Suggests (option_map (λ v. Suggest pool.now.pool.view.number v.0 (value_of v.1)) result) }
{
    let rank = own.position?;
    if !may_choose(pool) {
        return None;
    }
    if !is_open(pool, own, rank) {
        return None;
    }
    let chosen = choose(pool, rank, free_value(pool, own));
    suggest_due(pool, own, chosen)
}
