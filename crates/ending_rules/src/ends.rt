//! The End of a view: it is due once an update is notified by more than f members (docs/PROTOCOL.md, «What is signed»).
ghost use Rattle.std.specs.Prelude.{◌≡◌, ◌&&◌, not, nat_lt, length, is_some};
ghost use Rattle.std.specs.Option.{option_map};
ghost use Rattle.message_defs.specs.Statements.{End};
ghost use Rattle.group_defs.specs.Process.{Ends};
ghost use Rattle.group_defs.specs.Certified.{notified_updates};
ghost use Rattle.rule_laws.specs.Heard.{IsPool};
ghost use Rattle.ending_rules.specs.Due.{IsLeastDue};

use pool_questions::{Own, Pool, has_notified};

// Whether the process is a member that has not signed its End, and an update is notified.
fn may_end(pool: &Pool, own: &Own) -> bool
    ensures { IsPool pool.now.pool
        → result ≡ (is_some own.now.position && nat_lt 0 (length (notified_updates pool.now.pool)) && not own.now.ended) }
{
    own.position.is_some() && has_notified(pool) && !own.ended
}

/// The length that the due End says, 0 to 1,024 places: the placed length. None exactly where no End is due: the
/// process is no member, or has signed its End, or no update is notified by more than f members.
pub fn end_due(pool: &Pool, own: &Own) -> Option<u16>
    ensures { IsLeastDue pool.now.pool own.now Ends (option_map (End pool.now.pool.view.number) result) }
{
    if may_end(pool, own) {
        Some(pool.placed_len())
    } else {
        None
    }
}
