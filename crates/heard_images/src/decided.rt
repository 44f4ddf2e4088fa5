//! What decides a view.
ghost use Rattle.std.specs.Prelude.{◌≡◌, ◌↔◌, ℕ, Some, IsTrue};
ghost use Rattle.message_defs.specs.Updates as plain;
ghost use Rattle.message_defs.specs.Statements.{Ready};
ghost use Rattle.group_defs.specs.Certified as defs;
ghost use Rattle.rp_base.specs.Views.{value as value_of};
ghost use Rattle.member_events.specs.Below.{report};

use member_events::{Slot, Statement, conflicts};
use pool_questions::{Commit, Pool};
use rp_base::Value;

// Whether the pool certifies the Ready of this rank and value.
fn is_certified(pool: &Pool, rank: u8, value: Value) -> bool
    ensures { IsTrue result ↔ IsTrue (defs.is_certified pool.now.pool (Ready pool.now.pool.view.number rank (value_of value))) }
{
    let current = pool.view();
    let _members = current.members();
    let view = current.number();
    let ready = Statement::Ready { view, rank, value };
    match pool.certified::<Commit>(Slot::Rank { view, rank }) {
        Some(found) => !conflicts(&found, &ready),
        None => false,
    }
}

/// Whether the pool certifies the Ready of what is decided, if anything is.
pub fn is_decided(pool: &Pool, decision: Option<(u8, Value)>) -> bool
    ensures { IsTrue result ↔ ((d : ℕ × plain.Value) → report decision ≡ Some d
        → IsTrue (defs.is_certified pool.now.pool (Ready pool.now.pool.view.number d.0 d.1))) }
{
    match decision {
        Some((rank, value)) => is_certified(pool, rank, value),
        None => true,
    }
}
