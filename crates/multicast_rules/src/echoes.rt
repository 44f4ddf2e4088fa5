ghost use Rattle.std.specs.Prelude.{◌≡◌, is_some, IfSome, IsSome};
ghost use Rattle.std.specs.Option.{option_map};
ghost use Rattle.message_defs.specs.Statements.{InitAt};
ghost use Rattle.group_defs.specs.Process.{Setting, Process, Echoes};
ghost use Rattle.group_defs.specs.Certified as defs;
ghost use Rattle.group_defs.specs.Due.{least_due};
ghost use Rattle.stmt_codec.specs.Views.{message};
ghost use Rattle.own_place.specs.Owns.{IsOwnOf};
ghost use Rattle.rule_laws.specs.Heard.{IsPool};
ghost use Rattle.rule_laws.specs.Messages.{echo_to};

use crate::waiting::first_waiting;
use pool_questions::{Message, Own, Pool};
use rp_base::Pid;
use stmt_codec::Slot;

/// The message whose Echo is due, as its sender and its number; None exactly where none is. The Echo says what the sender's
/// heard Init says.
pub fn echo_due(pool: &Pool, own: &Own) -> Option<(Pid, u16)>
    // For each process whose own place and pool these are: its least due Echo.
    ensures least { (s : Setting) (p : Process) → IsPool pool.now.pool → IsOwnOf s p pool.now.pool own.now
        → least_due s p Echoes ≡ option_map (echo_to p) result }

    // Its Init is heard.
    ensures heard { IfSome result (λ e. IsSome (defs.heard_on pool.now.pool e.0 (InitAt pool.now.pool.view.number e.1))) }
{
    own.position?;
    if own.ended {
        return None;
    }
    first_waiting(pool, &own.signed)
}

/// Whether the sender's message of this number is certified.
pub fn message_held(pool: &Pool, sender: Pid, number: u16) -> bool
    ensures { result ≡ is_some (defs.payload_at pool.now.pool (message sender number)) }
{
    let view = pool.view().number();
    pool.certificate::<Message>(Slot::Message {
        view,
        sender,
        number,
    })
    .is_some()
}
