//! What a view decides (docs/PROTOCOL.md, «Settling»).
ghost use Rattle.std.specs.Prelude.{◌≡◌, IfSome, IsSome, is_some};
ghost use Rattle.std.specs.Option.{option_map};
ghost use Rattle.message_defs.specs.Statements.{ReadyAt};
ghost use Rattle.group_defs.specs.Process.{Setting};
ghost use Rattle.group_defs.specs.Certified as certified;
ghost use Rattle.group_defs.specs.Settle as defs;
ghost use Rattle.pool_laws.specs.Least.{IsLeastBelow};
ghost use Rattle.stmt_codec.specs.Views.{report};
ghost use Rattle.ending_rules.specs.Questions.{content_of};
ghost use Rattle.ending_rules.specs.Due.{HasKeys};

use ending_rules::{Certificate, Commit, Own, Pool, certified_ready};
use rp_base::Value;
use stmt_codec::Slot;
use view_table::is_possible;

// The rank and the value of its certified Ready, where the value's update is possible.
fn decided_at(pool: &Pool, own: &Own, rank: u8) -> Option<(u8, Value)>
    ensures { (s : Setting) → HasKeys s own.now → report result ≡ defs.decided_at s pool.now.pool rank }
{
    let value = certified_ready(pool, rank)?;
    if is_possible(pool.view(), own.keyed, &value.update) {
        Some((rank, value))
    } else {
        None
    }
}

// The least rank that decides; None exactly where none does.
fn deciding_rank(pool: &Pool, own: &Own) -> Option<u8>
    ensures { (s : Setting) → HasKeys s own.now
        → IsLeastBelow (certified.number_of_members pool.now.pool) (λ r. is_some (defs.decided_at s pool.now.pool r)) result }
{
    let members = pool.view().members().len() as u8;
    'ranks: for rank in 0..members {
        if decided_at(pool, own, rank).is_some() {
            return Some(rank);
        }
    }
    None
}

/// The rank and the value that decide the view, whether or not it is decided already: of the certified Readies whose update
/// is possible, the one of the least rank. None exactly where there is none.
pub fn decided(pool: &Pool, own: &Own) -> Option<(u8, Value)>
    ensures { (s : Setting) → HasKeys s own.now → report result ≡ defs.decided_by s pool.now.pool }
{
    // Where no Ready is heard, none is certified.
    if !pool.hears(11) {
        return None;
    }
    let rank = deciding_rank(pool, own)?;
    decided_at(pool, own, rank)
}

/// The certificate of the rank's Ready; None exactly where none is certified.
pub fn commit(pool: &Pool, rank: u8) -> Option<Certificate<'_, Commit>>
    ensures content { option_map content_of result ≡ certified.certified_on pool.now.pool (ReadyAt pool.now.pool.view.number rank) }
    ensures ready { IfSome result (λ c. IsSome (certified.readied (content_of c))) }
{
    let view = pool.view().number();
    pool.certificate::<Commit>(Slot::Rank { view, rank })
}
