//! Which view the members' Readies show.
ghost use Rattle.std.specs.Prelude.{◌≡◌, List, if◌then◌else◌, Some, None};
ghost use Rattle.std.specs.List.{AllByRecursion};
ghost use Rattle.byte_defs.specs.Reads.{Gives};
ghost use Rattle.message_defs.specs.Statements as plain;
ghost use Rattle.message_defs.specs.Spelling.{IsClaim};
ghost use Rattle.group_defs.specs.Process.{Setting, keyed as keyed_by};
ghost use Rattle.group_defs.specs.Views as views;
ghost use Rattle.rp_base.specs.Views.{update as update_of};
ghost use Rattle.chain_defs.specs.Advance.{counted, shows};
ghost use Rattle.chain_check.specs.Readies.{IsTable, shown_by};

use crate::readies::{Leading, RANKS, Readies};
use chain_defs::ChainFault;
use rp_base::{PidSet, Update};
use view_table::{View, is_possible, next, quorum};

// The view that follows by the update, where it is possible.
fn next_by(view: &View, keyed: PidSet, update: Update) -> Option<View>
    ensures { result ≡ if views.is_possible keyed view.now (update_of update)
        then Some (views.next_view view.now (update_of update)) else None }
{
    if !is_possible(view, keyed, &update) {
        return None;
    }
    next(view, update).ok()
}

// The view that follows by what a quorum says at a rank.
fn decided(view: &View, keyed: PidSet, leading: &Leading) -> Option<View>
    ensures { result ≡ shown_by keyed view.now leading.now }
{
    if leading.count < quorum(view.members().len()) {
        return None;
    }
    next_by(view, keyed, leading.value.update)
}

/// The view that a proof shows by these Readies, of the least rank that decides; else how many members say one Ready at most.
pub(crate) fn shown(view: &View, keyed: PidSet, readies: &Readies) -> Result<View, ChainFault>
    ensures { (s : Setting) (cs : List plain.Claim) → keyed ≡ keyed_by s → AllByRecursion IsClaim cs
        → IsTable (counted s view.now cs) readies.now.cells → Gives (λ w. w) result (shows s view.now cs) }
{
    let _members = view.members();
    let mut most = 0;
    for rank in 0..RANKS {
        let Some(leading) = readies.leading(view, rank) else {
            continue;
        };
        if let Some(next) = decided(view, keyed, &leading) {
            return Ok(next);
        }
        let count = leading.count;
        if count > most {
            most = count;
        }
    }
    Err(ChainFault::Few(most as u8))
}
