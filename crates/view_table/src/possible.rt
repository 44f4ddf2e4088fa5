//! Which updates are possible (docs/PROTOCOL.md, «Views»).
ghost use Rattle.std.specs.Prelude.{◌≡◌};
ghost use Rattle.group_defs.specs.Views as views;
ghost use Rattle.rp_base.specs.Views.{update as update_of};

use crate::view::{View, next};
use rp_base::{PidSet, Update};

/// Whether a process that the update adds has a key. `keyed` is the processes with keys.
pub fn has_key(keyed: PidSet, update: &Update) -> bool
    ensures { result ≡ views.has_keys keyed (update_of update.now) }
{
    match update {
        Update::Add(p) => keyed.contains(*p),
        _ => true,
    }
}

/// Whether a view follows by the update, and a process that it adds has a key. `keyed` is the processes with keys.
pub fn is_possible(view: &View, keyed: PidSet, update: &Update) -> bool
    ensures { result ≡ views.is_possible keyed view.now (update_of update.now) }
{
    next(view, *update).is_ok() && has_key(keyed, update)
}
